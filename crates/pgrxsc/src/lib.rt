// The functions that programs in other languages call. Each hands its work on and adds nothing but the packing of the answer:
// four numbers, of which the first two are a refusal's number and place, or 0 and 0.
#![tactic(auto)]

ghost use Rattle.std.specs.Prelude.{true, ◌↔◌, ◌≡◌, length};
ghost use Rattle.text.specs.Rfc3629.{Utf8};
ghost use Rattle.text.specs.Walk.{utf8};
ghost use Rattle.text.specs.Kept.{check_text, ExactCheck};
ghost use Rattle.layout.specs.Entities.{Entity, SqlMapping, FunctionMetadataType};
ghost use Rattle.layout.specs.Alone.{ExactAlone};
ghost use Rattle.layout.specs.ReadAlone.{reading_alone};
ghost use Rattle.section.specs.Section.{reading};
ghost use Rattle.section.specs.Demand3.{Demand3};
ghost use Rattle.directory.specs.Directory.{directory};
ghost use Rattle.directory.specs.Holder.{entity_at};
ghost use Rattle.directory.specs.Exact.{ExactDirectory, ExactHolder};
ghost use Rattle.elf.specs.Finding.{ExactFinding};
ghost use Rattle.elf.specs.Find.{find_section};
ghost use Rattle.parts.specs.Parts.{row_text, kept_name_in, ExactKeptName, sql_name_in};
ghost use Rattle.parts.specs.Names.{name_start, ExactStart};
ghost use Rattle.sql_text.specs.SqlText.{sql_text, filled, sql_answer};
ghost use Rattle.paths.specs.Paths.{report};
ghost use Rattle.paths.specs.Repeats.{ExactReport};
ghost use Rattle.writing.specs.Writing.{measured, write, length_in, written};
ghost use Rattle.writing.specs.Refusals.{alone, ExactLength, ExactWriting};
ghost use Rattle.section_writer.specs.Form.{section};
ghost use Rattle.section_writer.specs.Writing.{measured_section, write_section};
ghost use Rattle.pgrxsc.specs.Version.{version};
ghost use Rattle.packing.specs.Numbers.{answer_numbers, result_in, listed_in, holder_numbers, holder_told, part_numbers, part_told, place_numbers, in_buffer, length_numbers, length_told, report_numbers, pairs_in, total_told, start_numbers, start_told, text_numbers, text_told};

use directory::Record;
use table::Row;

// The version of these functions, which include/pgrxsc.h has as PGRXSC_VERSION.
const VERSION: u32 = 2;

// Which version of these functions the archive has.
#[unsafe(no_mangle)]
pub extern "C" fn pgrxsc_version() -> u32
    ensures { result ≡ version }
{
    VERSION
}

// Finds the section of a shared object with a name. The third number is its start in the file, the fourth its length.
#[unsafe(no_mangle)]
pub extern "C" fn pgrxsc_find_section(file: &[u8], name: &[u8], answer: &mut [u64; 4])
    ensures answer_after { answer.new ≡ part_numbers (find_section file.now name.now) }
    ensures exact_finding { ExactFinding file.now name.now (part_told answer.new) }
{
    *answer = packing::part_numbers(elf::place_section(file, name));
}

// Reads a whole section. The third number is that of entities, the fourth that of rows.
#[unsafe(no_mangle)]
pub extern "C" fn pgrxsc_read_section(bytes: &[u8], table: &mut [u32], answer: &mut [u64; 4])
    ensures answer_after { answer.new ≡ answer_numbers (reading bytes.now table.old).answer }
    ensures table_after { table.new ≡ (reading bytes.now table.old).table }
    ensures demand3 { Demand3 bytes.now table.old (result_in answer.new table.new) }
{
    *answer = packing::answer_numbers(section::decode_entities(bytes, table));
}

// The same with a directory: a record for each entity, at the start of the lent list.
#[unsafe(no_mangle)]
pub extern "C" fn pgrxsc_read_directory(
    bytes: &[u8],
    table: &mut [u32],
    records: &mut [Record],
    answer: &mut [u64; 4],
)
    ensures answer_after { answer.new ≡ answer_numbers (directory bytes.now table.old records.old).result.answer }
    ensures table_after { table.new ≡ (directory bytes.now table.old records.old).result.table }
    ensures records_after { records.new ≡ (directory bytes.now table.old records.old).list }
    ensures exact_directory { ExactDirectory bytes.now table.old records.old (listed_in answer.new table.new records.new) }
{
    *answer = packing::answer_numbers(directory::decode_directory(bytes, table, records));
}

// What holds the byte at a position of a section. The third number is 1 if an entity's entry contains it, else 0; the fourth is the
// index of the entity.
#[unsafe(no_mangle)]
pub extern "C" fn pgrxsc_entity_at(bytes: &[u8], position: u64, answer: &mut [u64; 4])
    ensures answer_after { answer.new ≡ holder_numbers (entity_at bytes.now position) }
    ensures exact_holder { ExactHolder bytes.now position (holder_told answer.new) }
{
    *answer = packing::holder_numbers(directory::entity_at(bytes, position));
}

// Reads one payload alone.
#[unsafe(no_mangle)]
pub extern "C" fn pgrxsc_read_payload(bytes: &[u8], table: &mut [u32], answer: &mut [u64; 4])
    ensures answer_after { answer.new ≡ answer_numbers (reading_alone Entity 1 bytes.now table.old).answer }
    ensures table_after { table.new ≡ (reading_alone Entity 1 bytes.now table.old).table }
    ensures exact_alone { ExactAlone Entity 1 bytes.now table.old (result_in answer.new table.new) }
{
    *answer = packing::answer_numbers(entity::decode_entity(bytes, table));
}

// The same for one metadata record alone.
#[unsafe(no_mangle)]
pub extern "C" fn pgrxsc_read_metadata(bytes: &[u8], table: &mut [u32], answer: &mut [u64; 4])
    ensures answer_after { answer.new ≡ answer_numbers (reading_alone FunctionMetadataType 0 bytes.now table.old).answer }
    ensures table_after { table.new ≡ (reading_alone FunctionMetadataType 0 bytes.now table.old).table }
    ensures exact_alone { ExactAlone FunctionMetadataType 0 bytes.now table.old (result_in answer.new table.new) }
{
    *answer = packing::answer_numbers(metadata::decode_function_metadata_type(bytes, table));
}

// The same for one mapping alone.
#[unsafe(no_mangle)]
pub extern "C" fn pgrxsc_read_mapping(bytes: &[u8], table: &mut [u32], answer: &mut [u64; 4])
    ensures answer_after { answer.new ≡ answer_numbers (reading_alone SqlMapping 0 bytes.now table.old).answer }
    ensures table_after { table.new ≡ (reading_alone SqlMapping 0 bytes.now table.old).table }
    ensures exact_alone { ExactAlone SqlMapping 0 bytes.now table.old (result_in answer.new table.new) }
{
    *answer = packing::answer_numbers(metadata::decode_sql_mapping(bytes, table));
}

// The text of a row of three numbers. The third number is its start in the bytes, the fourth its length.
#[unsafe(no_mangle)]
pub extern "C" fn pgrxsc_row_text(
    bytes: &[u8],
    sort: u32,
    offset: u32,
    value: u32,
    answer: &mut [u64; 4],
)
    ensures { answer.new ≡ part_numbers (row_text bytes.now (record { sort = sort; offset = offset; value = value })) }
{
    let row = Row {
        sort,
        offset,
        value,
    };
    *answer = packing::part_numbers(parts::place_row_text(bytes, row));
}

// The same for the kept name of a row: as much of its text as the server keeps of a name.
#[unsafe(no_mangle)]
pub extern "C" fn pgrxsc_kept_name(
    bytes: &[u8],
    sort: u32,
    offset: u32,
    value: u32,
    answer: &mut [u64; 4],
)
    ensures answer_after { answer.new ≡ part_numbers (kept_name_in bytes.now (row_text bytes.now (record { sort = sort; offset = offset; value = value }))) }
    ensures exact_kept_name { ExactKeptName bytes.now (record { sort = sort; offset = offset; value = value }) (part_told answer.new) }
{
    let row = Row {
        sort,
        offset,
        value,
    };
    *answer = packing::part_numbers(parts::place_kept_name(bytes, row));
}

// The same for the SQL name of a declaration, from the row of the declaration's name.
#[unsafe(no_mangle)]
pub extern "C" fn pgrxsc_sql_name(
    bytes: &[u8],
    sort: u32,
    offset: u32,
    value: u32,
    answer: &mut [u64; 4],
)
    ensures { answer.new ≡ part_numbers (sql_name_in bytes.now (row_text bytes.now (record { sort = sort; offset = offset; value = value }))) }
{
    let row = Row {
        sort,
        offset,
        value,
    };
    *answer = packing::part_numbers(parts::place_sql_name(bytes, row));
}

// Where the SQL name of a declared name starts. The third number is 1 if the bytes are UTF-8, else 0; the fourth is the start.
#[unsafe(no_mangle)]
pub extern "C" fn pgrxsc_name_start(bytes: &[u8], answer: &mut [u64; 4])
    ensures answer_after { answer.new ≡ start_numbers (name_start bytes.now) }
    ensures exact_start { ExactStart bytes.now (start_told answer.new) }
{
    *answer = packing::start_numbers(parts::name_start(bytes));
}

// The SQL text of the mapping at an offset. The third number is its start, the fourth its length: in the buffer if 1 is returned,
// else in the bytes.
#[unsafe(no_mangle)]
pub extern "C" fn pgrxsc_sql_text(
    bytes: &[u8],
    offset: u32,
    buffer: &mut [u8],
    answer: &mut [u64; 4],
) -> u32
    ensures value { result ≡ in_buffer (sql_answer (sql_text bytes.now offset (length buffer.old))) }
    ensures answer_after { answer.new ≡ place_numbers (sql_answer (sql_text bytes.now offset (length buffer.old))) }
    ensures buffer_after { buffer.new ≡ filled buffer.old (sql_text bytes.now offset (length buffer.old)) }
{
    let place = sql_text::place_sql_text(bytes, offset, buffer);
    *answer = packing::place_numbers(place);
    packing::in_buffer(place)
}

// Writes a metadata record, from rows and lent text bytes, to the start of dest. The third number is its length.
#[unsafe(no_mangle)]
pub extern "C" fn pgrxsc_write_metadata(
    rows: &[u32],
    text: &[u8],
    dest: &mut [u8],
    answer: &mut [u64; 4],
)
    ensures answer_after { answer.new ≡ length_numbers (length_in (write FunctionMetadataType rows.now text.now (length dest.old))) }
    ensures dest_after { dest.new ≡ written (write FunctionMetadataType rows.now text.now (length dest.old)) dest.old }
    ensures exact_writing { ExactWriting (alone FunctionMetadataType) rows.now text.now dest.old (length_told answer.new) dest.new }
{
    *answer = packing::length_numbers(writer::encode_function_metadata_type(rows, text, dest));
}

// The same for a mapping.
#[unsafe(no_mangle)]
pub extern "C" fn pgrxsc_write_mapping(
    rows: &[u32],
    text: &[u8],
    dest: &mut [u8],
    answer: &mut [u64; 4],
)
    ensures answer_after { answer.new ≡ length_numbers (length_in (write SqlMapping rows.now text.now (length dest.old))) }
    ensures dest_after { dest.new ≡ written (write SqlMapping rows.now text.now (length dest.old)) dest.old }
    ensures exact_writing { ExactWriting (alone SqlMapping) rows.now text.now dest.old (length_told answer.new) dest.new }
{
    *answer = packing::length_numbers(writer::encode_sql_mapping(rows, text, dest));
}

// The same for one entity, as a payload.
#[unsafe(no_mangle)]
pub extern "C" fn pgrxsc_write_payload(
    rows: &[u32],
    text: &[u8],
    dest: &mut [u8],
    answer: &mut [u64; 4],
)
    ensures answer_after { answer.new ≡ length_numbers (length_in (write Entity rows.now text.now (length dest.old))) }
    ensures dest_after { dest.new ≡ written (write Entity rows.now text.now (length dest.old)) dest.old }
    ensures exact_writing { ExactWriting (alone Entity) rows.now text.now dest.old (length_told answer.new) dest.new }
{
    *answer = packing::length_numbers(entity_writer::encode_entity(rows, text, dest));
}

// The same for a section of one or more entities, without sentinel and padding.
#[unsafe(no_mangle)]
pub extern "C" fn pgrxsc_write_section(
    rows: &[u32],
    text: &[u8],
    dest: &mut [u8],
    answer: &mut [u64; 4],
)
    ensures answer_after { answer.new ≡ length_numbers (length_in (write_section rows.now text.now (length dest.old))) }
    ensures dest_after { dest.new ≡ written (write_section rows.now text.now (length dest.old)) dest.old }
    ensures exact_writing { ExactWriting section rows.now text.now dest.old (length_told answer.new) dest.new }
{
    *answer = packing::length_numbers(section_writer::encode_entities(rows, text, dest));
}

// Measures a metadata record, from rows and lent text bytes, before it is written. The third number is its length.
#[unsafe(no_mangle)]
pub extern "C" fn pgrxsc_metadata_len(rows: &[u32], text: &[u8], answer: &mut [u64; 4])
    ensures answer_after { answer.new ≡ length_numbers (length_in (measured FunctionMetadataType rows.now text.now)) }
    ensures exact_length { ExactLength (alone FunctionMetadataType) rows.now text.now (length_told answer.new) }
{
    *answer = packing::length_numbers(writer::function_metadata_type_len(rows, text));
}

// The same for a mapping.
#[unsafe(no_mangle)]
pub extern "C" fn pgrxsc_mapping_len(rows: &[u32], text: &[u8], answer: &mut [u64; 4])
    ensures answer_after { answer.new ≡ length_numbers (length_in (measured SqlMapping rows.now text.now)) }
    ensures exact_length { ExactLength (alone SqlMapping) rows.now text.now (length_told answer.new) }
{
    *answer = packing::length_numbers(writer::sql_mapping_len(rows, text));
}

// The same for one entity, as a payload.
#[unsafe(no_mangle)]
pub extern "C" fn pgrxsc_payload_len(rows: &[u32], text: &[u8], answer: &mut [u64; 4])
    ensures answer_after { answer.new ≡ length_numbers (length_in (measured Entity rows.now text.now)) }
    ensures exact_length { ExactLength (alone Entity) rows.now text.now (length_told answer.new) }
{
    *answer = packing::length_numbers(entity_writer::entity_len(rows, text));
}

// The same for a section of one or more entities, without sentinel and padding.
#[unsafe(no_mangle)]
pub extern "C" fn pgrxsc_section_len(rows: &[u32], text: &[u8], answer: &mut [u64; 4])
    ensures answer_after { answer.new ≡ length_numbers (length_in (measured_section rows.now text.now)) }
    ensures exact_length { ExactLength section rows.now text.now (length_told answer.new) }
{
    *answer = packing::length_numbers(section_writer::entities_len(rows, text));
}

// The number of pairs of entities that repeat a path. It does not depend on `work`; what `work` holds afterwards is free.
#[unsafe(no_mangle)]
pub extern "C" fn pgrxsc_path_repeats(bytes: &[u8], work: &mut [u32], answer: &mut [u64; 4]) -> u64
    ensures value { result ≡ pairs_in (report bytes.now) }
    ensures answer_after { answer.new ≡ report_numbers (report bytes.now) }
    ensures exact_report { ExactReport bytes.now (total_told result answer.new) }
{
    let report = paths::path_repeats(bytes, work);
    *answer = packing::report_numbers(report);
    packing::pairs_in(report)
}

// Whether the bytes are UTF-8 by RFC 3629.
#[unsafe(no_mangle)]
pub extern "C" fn pgrxsc_is_text(bytes: &[u8]) -> bool
    ensures value { result ≡ utf8 bytes.now }
    ensures variant { (result ≡ true) ↔ Utf8 bytes.now }
{
    text::is_utf8(bytes)
}

// The same with how many bytes of such a name the server keeps. The third number is 1 if the bytes are UTF-8, else 0; the fourth is how
// many are kept.
#[unsafe(no_mangle)]
pub extern "C" fn pgrxsc_check_text(bytes: &[u8], answer: &mut [u64; 4])
    ensures answer_after { answer.new ≡ text_numbers (check_text bytes.now) }
    ensures exact_check { ExactCheck bytes.now (text_told answer.new) }
{
    *answer = packing::text_numbers(text::check_text(bytes));
}
