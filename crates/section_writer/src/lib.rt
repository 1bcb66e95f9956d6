// The writer of a section of one or more entities, from rows: entries without sentinel or padding.
#![tactic(auto)]

ghost use Rattle.std.specs.Prelude.{◌≡◌, length};
ghost use Rattle.layout.specs.Answers.{whole_rows};
ghost use Rattle.length.specs.Length.{length_of};
ghost use Rattle.writing.specs.Writing.{length_in, written};
ghost use Rattle.writing.specs.Refusals.{ExactLength, ExactWriting};
ghost use Rattle.entry_writer.specs.EntryWriter.{state_of, lent_of};
ghost use Rattle.section_writer.specs.Form.{section};
ghost use Rattle.section_writer.specs.Writing.{measured_section, write_section};
ghost use Rattle.section_writer.specs.Private.{consume_entities};

use entry_writer::EntryWriter;
use layout::ROW_WIDTH;
use pass::Pass;
use table::Refusal;

// The length of the section that the rows spell, or a refusal of 14 to 16.
pub fn entities_len(rows: &[u32], text: &[u8]) -> Result<usize, Refusal>
    ensures result_value { length_of result ≡ length_in (measured_section rows.now text.now) }
    ensures exact_length { ExactLength section rows.now text.now (length_of result) }
{
    let mut w = EntryWriter::new(rows, text);
    entities(&mut w, rows.len() / ROW_WIDTH);
    w.finish()
}

// Writes the section that the rows spell to the start of dest, and answers its length; or a refusal of 14 to 17, and dest is
// unchanged.
pub fn encode_entities(rows: &[u32], text: &[u8], dest: &mut [u8]) -> Result<usize, Refusal>
    ensures result_value { length_of result ≡ length_in (write_section rows.now text.now (length dest.old)) }
    ensures dest_after { dest.new ≡ written (write_section rows.now text.now (length dest.old)) dest.old }
    ensures exact_writing { ExactWriting section rows.now text.now dest.old (length_of result) dest.new }
{
    let length = entry_writer::fitting(entities_len(rows, text), dest.len())?;
    storing::store_entries(rows, text, dest);
    Ok(length)
}

// One entity or more up to the last row, each after the length of its entry. There are at most as many as rows.
fn entities(w: &mut EntryWriter, rows: usize)
    requires { rows ≡ whole_rows (lent_of w.old).0 }
    ensures lent { lent_of w.new ≡ lent_of w.old }
    ensures state { state_of w.new ≡ consume_entities (lent_of w.old).0 (lent_of w.old).1 rows (state_of w.old) }
{
    for _ in 0..rows {
        w.entry_length();
        entity::entity(w);
        if w.is_refused() || rows <= w.place() {
            return;
        }
    }
    w.stop();
}
