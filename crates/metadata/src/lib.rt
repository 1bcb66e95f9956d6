// The metadata of a type: how it maps to SQL as an argument and as a result; and the reading of one mapping or record alone.
#![tactic(auto)]

ghost use Rattle.std.specs.Prelude.{◌≡◌};
ghost use Rattle.layout.specs.Entities.{SqlMapping, SqlArrayMapping, Numeric, Returns, SqlMappingList, ArgumentSql, ReturnSql};
ghost use Rattle.layout.specs.Entities.{ArgumentError, ReturnsError, FunctionMetadataType, OptionResolution, Resolution, TypeOrigin};
ghost use Rattle.layout.specs.Alone.{ExactAlone};
ghost use Rattle.layout.specs.ReadAlone.{reading_alone};
ghost use Rattle.table.specs.Answers.{result_of};
ghost use Rattle.pass.specs.Pass.{Runs};

use leaf::Reader;
use pass::Pass;
use table::{Counts, Refusal, RefusalKind};

// This and the next two are inlined, for the loop over a table's mappings.
#[inline(always)]
pub fn sql_mapping<P: Pass>(p: &mut P)
    ensures { Runs P.meaning SqlMapping p.old p.new }
{
    let begin = p.place();
    match p.u8() {
        layout::SQL_MAPPING_AS => p.str(),
        layout::SQL_MAPPING_ARRAY => sql_array_mapping(p),
        layout::SQL_MAPPING_NUMERIC => numeric(p),
        layout::SQL_MAPPING_COMPOSITE..=layout::SQL_MAPPING_SKIP => {}
        _ => p.refuse(RefusalKind::UnknownTag, begin),
    }
}

#[inline(always)]
pub fn sql_array_mapping<P: Pass>(p: &mut P)
    ensures { Runs P.meaning SqlArrayMapping p.old p.new }
{
    let begin = p.place();
    match p.u8() {
        layout::SQL_MAPPING_AS => p.str(),
        layout::SQL_MAPPING_NUMERIC => numeric(p),
        layout::SQL_MAPPING_COMPOSITE => {}
        _ => p.refuse(RefusalKind::UnknownTag, begin), // Array and Skip too
    }
}

// A Numeric mapping: each number is there even if its flag is 0.
#[inline(always)]
pub fn numeric<P: Pass>(p: &mut P)
    ensures { Runs P.meaning Numeric p.old p.new }
{
    p.bool(); // has_precision
    p.u32(); // precision
    p.bool(); // has_scale
    p.u32() // scale
}

pub fn returns<P: Pass>(p: &mut P)
    ensures { Runs P.meaning Returns p.old p.new }
{
    let begin = p.place();
    match p.u8() {
        layout::RETURNS_ONE..=layout::RETURNS_SET_OF => sql_mapping(p),
        layout::RETURNS_TABLE => sql_mapping_list(p),
        _ => p.refuse(RefusalKind::UnknownTag, begin),
    }
}

pub fn sql_mapping_list<P: Pass>(p: &mut P)
    ensures { Runs P.meaning SqlMappingList p.old p.new }
{
    pass::list(p, sql_mapping::<P>)
}

pub fn argument_sql<P: Pass>(p: &mut P)
    ensures { Runs P.meaning ArgumentSql p.old p.new }
{
    let begin = p.place();
    match p.u8() {
        layout::RESULT_OK => sql_mapping(p),
        layout::RESULT_ERR => argument_error(p),
        _ => p.refuse(RefusalKind::UnknownTag, begin),
    }
}

pub fn return_sql<P: Pass>(p: &mut P)
    ensures { Runs P.meaning ReturnSql p.old p.new }
{
    let begin = p.place();
    match p.u8() {
        layout::RESULT_OK => returns(p),
        layout::RESULT_ERR => returns_error(p),
        _ => p.refuse(RefusalKind::UnknownTag, begin),
    }
}

pub fn argument_error<P: Pass>(p: &mut P)
    ensures { Runs P.meaning ArgumentError p.old p.new }
{
    let begin = p.place();
    match p.u8() {
        layout::ARG_ERROR_SET_OF..=layout::ARG_ERROR_DATUM => {}
        layout::ARG_ERROR_NOT_VALID => p.str(),
        _ => p.refuse(RefusalKind::UnknownTag, begin),
    }
}

pub fn returns_error<P: Pass>(p: &mut P)
    ensures { Runs P.meaning ReturnsError p.old p.new }
{
    let begin = p.place();
    match p.u8() {
        layout::RETURNS_ERROR_NESTED_SET_OF..=layout::RETURNS_ERROR_DATUM => {}
        _ => p.refuse(RefusalKind::UnknownTag, begin),
    }
}

// The metadata record.
pub fn function_metadata_type<P: Pass>(p: &mut P)
    ensures { Runs P.meaning FunctionMetadataType p.old p.new }
{
    option_resolution(p); // resolution
    argument_sql(p); // argument_sql
    return_sql(p) // return_sql
}

pub fn option_resolution<P: Pass>(p: &mut P)
    ensures { Runs P.meaning OptionResolution p.old p.new }
{
    pass::option(p, resolution::<P>)
}

pub fn resolution<P: Pass>(p: &mut P)
    ensures { Runs P.meaning Resolution p.old p.new }
{
    p.str(); // type_ident
    type_origin(p) // type_origin
}

pub fn type_origin<P: Pass>(p: &mut P)
    ensures { Runs P.meaning TypeOrigin p.old p.new }
{
    let begin = p.place();
    match p.u8() {
        layout::TYPE_ORIGIN_THIS_EXTENSION..=layout::TYPE_ORIGIN_EXTERNAL => {}
        _ => p.refuse(RefusalKind::UnknownTag, begin),
    }
}

// One mapping alone, and nothing after it.
pub fn decode_sql_mapping(s: &[u8], t: &mut [u32]) -> Result<Counts, Refusal>
    ensures t_after { result_of result t.new ≡ reading_alone SqlMapping 0 s.now t.old }
    ensures exact_alone { ExactAlone SqlMapping 0 s.now t.old (result_of result t.new) }
{
    let mut reader = Reader::new(s, t);
    sql_mapping(&mut reader);
    reader.answer_alone(0)
}

// One metadata record alone, and nothing after it.
pub fn decode_function_metadata_type(s: &[u8], t: &mut [u32]) -> Result<Counts, Refusal>
    ensures t_after { result_of result t.new ≡ reading_alone FunctionMetadataType 0 s.now t.old }
    ensures exact_alone { ExactAlone FunctionMetadataType 0 s.now t.old (result_of result t.new) }
{
    let mut reader = Reader::new(s, t);
    function_metadata_type(&mut reader);
    reader.answer_alone(0)
}
