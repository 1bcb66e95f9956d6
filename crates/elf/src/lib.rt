// A section of a shared object, by its name: a part of the file. The file is ELF, 64-bit and little-endian, and of any length.
#![tactic(auto)]

ghost use Rattle.std.specs.Prelude.{◌+◌, ◌-◌, ◌<◌, ◌≤◌, ◌≡◌, length};
ghost use Rattle.place.specs.Place.{found_part, part_of, number_in, place_in, bytes_told, number_told, place_told, told_as};
ghost use Rattle.elf.specs.Elf.{little, e_shnum, of_file, section_in, name_table, field_in, sh_offset, sh_size, SectionTables};
ghost use Rattle.elf.specs.Finding.{ExactFinding};
ghost use Rattle.elf.specs.Find.{is_elf64, ends_in_file, has_tables, is_name, is_named_at, header_section, first_named, find_section};

use place::Part;
use table::{Refusal, RefusalKind};

// The first four bytes.
const ELFMAG: &[u8] = b"\x7fELF";

// The size of the file header, and of a section header.
const EHSIZE: usize = 64;

const SHENTSIZE: usize = 64;

// The class of the file and its byte order: where they stand, and what they are in a 64-bit, little-endian file.
const EI_CLASS: usize = 4;

const ELFCLASS64: u8 = 2;

const EI_DATA: usize = 5;

const ELFDATA2LSB: u8 = 1;

// Fields of the file header.
const E_SHOFF: usize = 40;

const E_SHENTSIZE: usize = 58;

const E_SHNUM: usize = 60;

const E_SHSTRNDX: usize = 62;

// Fields of a section header. The first is sh_name.
const SH_TYPE: usize = 4;

const SH_OFFSET: usize = 24;

const SH_SIZE: usize = 32;

// The type of a section that has no bytes in the file.
const SHT_NOBITS: usize = 8;

// The section of a file with a name, a part of the file.
pub fn find_section<'a>(file: &'a [u8], name: &[u8]) -> Result<&'a [u8], Refusal>
    ensures result_value { bytes_told result ≡ part_of file.now (find_section file.now name.now) }
    ensures number_after { number_told result ≡ number_in (find_section file.now name.now) }
    ensures place_after { place_told result ≡ place_in (find_section file.now name.now) }
    ensures case { told_as result (find_section file.now name.now) }
{
    place::part_at(file, place_section(file, name))
}

// Where it is.
#[tactic(auto, using(crate::proofs::Steps::elf_long), unfolding(crate::specs::Find::find_section))]
pub fn place_section(file: &[u8], name: &[u8]) -> Result<Part, Refusal>
    ensures result_value { found_part result ≡ find_section file.now name.now }
    ensures exact_finding { ExactFinding file.now name.now (found_part result) }
{
    if !is_elf64(file) {
        return place::no_part(RefusalKind::NotElf64 as u32);
    }
    if !has_tables(file) {
        return place::no_part(RefusalKind::BadSectionHeaders as u32);
    }
    if !is_name(name) {
        return place::no_part(RefusalKind::NoSuchSection as u32);
    }
    first_named(file, name_table(file), name)
}

// Whether the file is one of the kind that is searched.
#[tactic(auto, unfolding(crate::specs::Find::is_elf64))]
fn is_elf64(file: &[u8]) -> bool
    ensures { result ≡ is_elf64 file.now }
{
    EHSIZE <= file.len()
        && &file[..4] == ELFMAG
        && file[EI_CLASS] == ELFCLASS64
        && file[EI_DATA] == ELFDATA2LSB
        && half(file, E_SHENTSIZE) == SHENTSIZE
}

// Whether there are section headers and a section name table, and both end within the file.
#[tactic(auto, unfolding(crate::specs::Find::has_tables))]
fn has_tables(file: &[u8]) -> bool
    requires { 64 ≤ length file.now }
    ensures { result ≡ has_tables file.now }
{
    let count = half(file, E_SHNUM);
    let index = half(file, E_SHSTRNDX);
    let headers = xword(file, E_SHOFF);
    index < count
        && headers <= file.len()
        && SHENTSIZE * count <= file.len() - headers
        && ends_in_file(file, headers + SHENTSIZE * index)
}

// Whether the section whose header begins at a place ends within the file.
#[tactic(auto, unfolding(crate::specs::Find::ends_in_file))]
fn ends_in_file(file: &[u8], header: usize) -> bool
    requires { header + 64 ≤ length file.now }
    ensures { result ≡ ends_in_file file.now header }
{
    let part = section_part(file, header);
    part.start <= file.len() && part.len <= file.len() - part.start
}

// Whether a section can have the name: it is not empty and holds no zero byte.
#[tactic(auto, unfolding(crate::specs::Find::is_name))]
fn is_name(name: &[u8]) -> bool
    ensures { result ≡ is_name name.now }
{
    !name.is_empty() && !name.contains(&0)
}

// The section name table, a part of the file.
fn name_table<'a>(file: &'a [u8]) -> &'a [u8]
    requires long { 64 ≤ length file.now }
    requires tables { SectionTables file.now }
    ensures { result.now ≡ section_in file.now (name_table file.now) }
{
    let header = xword(file, E_SHOFF) + SHENTSIZE * half(file, E_SHSTRNDX);
    section_part(file, header).of(file)
}

// The section of the first header, from 1 on, that has the name in the table.
#[tactic(auto, unfolding(crate::specs::Find::first_named))]
fn first_named(file: &[u8], table: &[u8], name: &[u8]) -> Result<Part, Refusal>
    requires long { 64 ≤ length file.now }
    requires tables { SectionTables file.now }
    requires names { table.now ≡ section_in file.now (name_table file.now) }
    ensures { found_part result ≡ first_named file.now name.now (of_file file.now e_shnum - 1) 1 }
{
    let count = half(file, E_SHNUM);
    let headers = xword(file, E_SHOFF);
    for i in 1..count {
        let header = headers + SHENTSIZE * i;
        if is_named_at(table, word(file, header), name) {
            return header_section(file, header);
        }
    }
    place::no_part(RefusalKind::NoSuchSection as u32)
}

// Whether the name stands in the table at an offset, and a zero byte of the table follows it. Most names are told apart by the
// place of that byte.
#[tactic(auto, unfolding(crate::specs::Find::is_named_at))]
fn is_named_at(table: &[u8], offset: usize, name: &[u8]) -> bool
    ensures { result ≡ is_named_at table.now offset name.now }
{
    let Some(rest) = table.get(offset..) else {
        return false;
    };
    if rest.len() <= name.len() {
        return false;
    }
    rest[name.len()] == 0 && &rest[..name.len()] == name
}

// The section whose header begins at a place.
#[tactic(auto, unfolding(crate::specs::Find::header_section))]
fn header_section(file: &[u8], header: usize) -> Result<Part, Refusal>
    requires { header + 64 ≤ length file.now }
    ensures { found_part result ≡ header_section file.now header }
{
    if word(file, header + SH_TYPE) == SHT_NOBITS {
        return place::no_part(RefusalKind::NoSuchSection as u32);
    }
    if !ends_in_file(file, header) {
        return place::no_part(RefusalKind::BadSectionHeaders as u32);
    }
    Ok(section_part(file, header))
}

// Where the section is whose header begins at a place, as the header says.
fn section_part(file: &[u8], header: usize) -> Part
    requires { header + 64 ≤ length file.now }
    ensures start { result.start ≡ field_in file.now header sh_offset }
    ensures len { result.len ≡ field_in file.now header sh_size }
{
    Part {
        start: xword(file, header + SH_OFFSET),
        len: xword(file, header + SH_SIZE),
    }
}

// The number of two bytes at a place.
#[tactic(auto, unfolding(crate::specs::Elf::little))]
fn half(s: &[u8], at: usize) -> usize
    requires { at + 2 ≤ length s.now }
    ensures { (result ≡ little 2 s.now at) × (result < 65536) }
{
    u16::from_le_bytes([s[at], s[at + 1]]) as usize
}

// The number of four bytes.
#[tactic(auto, unfolding(crate::specs::Elf::little))]
fn word(s: &[u8], at: usize) -> usize
    requires { at + 4 ≤ length s.now }
    ensures { (result ≡ little 4 s.now at) × (result < 4294967296) }
{
    u32::from_le_bytes([s[at], s[at + 1], s[at + 2], s[at + 3]]) as usize
}

// The number of eight bytes.
#[tactic(auto, unfolding(crate::specs::Elf::little))]
fn xword(s: &[u8], at: usize) -> usize
    requires { at + 8 ≤ length s.now }
    ensures { result ≡ little 8 s.now at }
{
    u64::from_le_bytes([
        s[at],
        s[at + 1],
        s[at + 2],
        s[at + 3],
        s[at + 4],
        s[at + 5],
        s[at + 6],
        s[at + 7],
    ]) as usize
}
