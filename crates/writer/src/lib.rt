// The writing of one value of a layout: its length, and its bytes. And of a type's metadata: how it maps to SQL as an argument and
// as a result.
#![tactic(auto)]

ghost use Rattle.std.specs.Prelude.{◌≡◌, length};
ghost use Rattle.std.specs.Borrow.{MutBor};
ghost use Rattle.layout.specs.Layout.{Layout};
ghost use Rattle.layout.specs.Entities.{SqlMapping, SqlArrayMapping, Returns, ArgumentError, ArgumentSql, ReturnsError, ReturnSql, FunctionMetadataType};
ghost use Rattle.length.specs.Length.{length_of};
ghost use Rattle.pass.specs.Pass.{Runs};
ghost use Rattle.writing.specs.Writing.{measured, write, length_in, written};
ghost use Rattle.writing.specs.Refusals.{alone, ExactLength, ExactWriting};
ghost use Rattle.entry_writer.specs.EntryWriter.{writer_meaning};
ghost use Rattle.entry_writer.specs.declared.EntryWriter as writers;

use entry_writer::EntryWriter;
use table::Refusal;

// Measures one value from its rows, by what passes over it: its length in bytes, or a refusal of 14 to 16.
pub fn measured<'a, F: FnOnce(&mut EntryWriter<'a>)>(
    rows: &'a [u32],
    text: &'a [u8],
    part: F,
) -> Result<usize, Refusal>
    requires { F.IsAlwaysCallable part }
    ensures { (L : Layout) → ((q r : MutBor writers.EntryWriter) → F.post part q tt r → Runs writer_meaning L q.now r.now)
        → (length_of result ≡ length_in (measured L rows.now text.now)) × ExactLength (alone L) rows.now text.now (length_of result) }
{
    let mut w = EntryWriter::new(rows, text);
    part(&mut w);
    w.finish()
}

// Writes it to the start of dest and answers its length; or answers a refusal of 14 to 17, with dest unchanged.
pub fn encoded<'a, F: FnOnce(&mut EntryWriter<'a>)>(
    rows: &'a [u32],
    text: &'a [u8],
    dest: &mut [u8],
    part: F,
) -> Result<usize, Refusal>
    requires { F.IsAlwaysCallable part }
    ensures { (L : Layout) → ((q r : MutBor writers.EntryWriter) → F.post part q tt r → Runs writer_meaning L q.now r.now)
        → (length_of result ≡ length_in (write L rows.now text.now (length dest.old)))
        × ((dest.new ≡ written (write L rows.now text.now (length dest.old)) dest.old)
        × ExactWriting (alone L) rows.now text.now dest.old (length_of result) dest.new) }
{
    let length = entry_writer::fitting(measured(rows, text, part), dest.len())?;
    storing::store(rows, text, dest);
    Ok(length)
}

// This and the next seven measure one part from its rows: its length in bytes, or a refusal of 14 to 16. Here: a mapping.
pub fn sql_mapping_len(rows: &[u32], text: &[u8]) -> Result<usize, Refusal>
    ensures result_value { length_of result ≡ length_in (measured SqlMapping rows.now text.now) }
    ensures exact_length { ExactLength (alone SqlMapping) rows.now text.now (length_of result) }
{
    measured(rows, text, metadata::sql_mapping)
}

// An array's mapping.
pub fn sql_array_mapping_len(rows: &[u32], text: &[u8]) -> Result<usize, Refusal>
    ensures result_value { length_of result ≡ length_in (measured SqlArrayMapping rows.now text.now) }
    ensures exact_length { ExactLength (alone SqlArrayMapping) rows.now text.now (length_of result) }
{
    measured(rows, text, metadata::sql_array_mapping)
}

// What is returned.
pub fn returns_len(rows: &[u32], text: &[u8]) -> Result<usize, Refusal>
    ensures result_value { length_of result ≡ length_in (measured Returns rows.now text.now) }
    ensures exact_length { ExactLength (alone Returns) rows.now text.now (length_of result) }
{
    measured(rows, text, metadata::returns)
}

// An argument-side error.
pub fn argument_error_len(rows: &[u32], text: &[u8]) -> Result<usize, Refusal>
    ensures result_value { length_of result ≡ length_in (measured ArgumentError rows.now text.now) }
    ensures exact_length { ExactLength (alone ArgumentError) rows.now text.now (length_of result) }
{
    measured(rows, text, metadata::argument_error)
}

// An argument-side result.
pub fn argument_sql_len(rows: &[u32], text: &[u8]) -> Result<usize, Refusal>
    ensures result_value { length_of result ≡ length_in (measured ArgumentSql rows.now text.now) }
    ensures exact_length { ExactLength (alone ArgumentSql) rows.now text.now (length_of result) }
{
    measured(rows, text, metadata::argument_sql)
}

// A return-side error.
pub fn returns_error_len(rows: &[u32], text: &[u8]) -> Result<usize, Refusal>
    ensures result_value { length_of result ≡ length_in (measured ReturnsError rows.now text.now) }
    ensures exact_length { ExactLength (alone ReturnsError) rows.now text.now (length_of result) }
{
    measured(rows, text, metadata::returns_error)
}

// A return-side result.
pub fn return_sql_len(rows: &[u32], text: &[u8]) -> Result<usize, Refusal>
    ensures result_value { length_of result ≡ length_in (measured ReturnSql rows.now text.now) }
    ensures exact_length { ExactLength (alone ReturnSql) rows.now text.now (length_of result) }
{
    measured(rows, text, metadata::return_sql)
}

// A metadata record.
pub fn function_metadata_type_len(rows: &[u32], text: &[u8]) -> Result<usize, Refusal>
    ensures result_value { length_of result ≡ length_in (measured FunctionMetadataType rows.now text.now) }
    ensures exact_length { ExactLength (alone FunctionMetadataType) rows.now text.now (length_of result) }
{
    measured(rows, text, metadata::function_metadata_type)
}

// Writes a mapping to the start of dest and answers its length; or answers a refusal of 14 to 17, with dest unchanged.
pub fn encode_sql_mapping(rows: &[u32], text: &[u8], dest: &mut [u8]) -> Result<usize, Refusal>
    ensures result_value { length_of result ≡ length_in (write SqlMapping rows.now text.now (length dest.old)) }
    ensures dest_after { dest.new ≡ written (write SqlMapping rows.now text.now (length dest.old)) dest.old }
    ensures exact_writing { ExactWriting (alone SqlMapping) rows.now text.now dest.old (length_of result) dest.new }
{
    encoded(rows, text, dest, metadata::sql_mapping)
}

// Writes a metadata record to the start of dest and answers its length; or answers a refusal of 14 to 17, with dest unchanged.
pub fn encode_function_metadata_type(
    rows: &[u32],
    text: &[u8],
    dest: &mut [u8],
) -> Result<usize, Refusal>
    ensures result_value { length_of result ≡ length_in (write FunctionMetadataType rows.now text.now (length dest.old)) }
    ensures dest_after { dest.new ≡ written (write FunctionMetadataType rows.now text.now (length dest.old)) dest.old }
    ensures exact_writing { ExactWriting (alone FunctionMetadataType) rows.now text.now dest.old (length_of result) dest.new }
{
    encoded(rows, text, dest, metadata::function_metadata_type)
}
