// The nine entities; and the reading of one payload alone.
#![tactic(auto)]

ghost use Rattle.std.specs.Prelude.{◌≡◌};
ghost use Rattle.layout.specs.Entities.{FinalizeModify, OptionFinalizeModify};
ghost use Rattle.layout.specs.Entities.{ParallelOption, OptionParallelOption, OptionUsedType, OptionAggregateTypeList};
ghost use Rattle.layout.specs.Entities.{Entity, Schema, CustomSql, Function, PostgresType, PostgresEnum, OrdOrHash, Aggregate, Trigger};
ghost use Rattle.layout.specs.Alone.{ExactAlone};
ghost use Rattle.layout.specs.ReadAlone.{reading_alone};
ghost use Rattle.table.specs.Answers.{result_of};
ghost use Rattle.pass.specs.Pass.{Runs};

use leaf::Reader;
use pass::Pass;
use table::{Counts, Refusal, RefusalKind};

pub fn finalize_modify<P: Pass>(p: &mut P)
    ensures { Runs P.meaning FinalizeModify p.old p.new }
{
    let begin = p.place();
    match p.u8() {
        layout::AGGREGATE_FINALIZE_READ_ONLY..=layout::AGGREGATE_FINALIZE_READ_WRITE => {}
        _ => p.refuse(RefusalKind::UnknownTag, begin),
    }
}

pub fn option_finalize_modify<P: Pass>(p: &mut P)
    ensures { Runs P.meaning OptionFinalizeModify p.old p.new }
{
    pass::option(p, finalize_modify::<P>)
}

pub fn parallel_option<P: Pass>(p: &mut P)
    ensures { Runs P.meaning ParallelOption p.old p.new }
{
    let begin = p.place();
    match p.u8() {
        layout::AGGREGATE_PARALLEL_SAFE..=layout::AGGREGATE_PARALLEL_UNSAFE => {}
        _ => p.refuse(RefusalKind::UnknownTag, begin),
    }
}

pub fn option_parallel_option<P: Pass>(p: &mut P)
    ensures { Runs P.meaning OptionParallelOption p.old p.new }
{
    pass::option(p, parallel_option::<P>)
}

pub fn option_used_type<P: Pass>(p: &mut P)
    ensures { Runs P.meaning OptionUsedType p.old p.new }
{
    pass::option(p, used::used_type::<P>)
}

pub fn option_aggregate_type_list<P: Pass>(p: &mut P)
    ensures { Runs P.meaning OptionAggregateTypeList p.old p.new }
{
    pass::option(p, used::aggregate_type_list::<P>)
}

// One entity: its kind, then the fields of that kind.
pub fn entity<P: Pass>(p: &mut P)
    ensures { Runs P.meaning Entity p.old p.new }
{
    let begin = p.place();
    match p.kind() {
        layout::ENTITY_SCHEMA => schema(p),
        layout::ENTITY_CUSTOM_SQL => custom_sql(p),
        layout::ENTITY_FUNCTION => function(p),
        layout::ENTITY_TYPE => postgres_type(p),
        layout::ENTITY_ENUM => postgres_enum(p),
        layout::ENTITY_ORD..=layout::ENTITY_HASH => ord_or_hash(p),
        layout::ENTITY_AGGREGATE => aggregate(p),
        layout::ENTITY_TRIGGER => trigger(p),
        _ => p.refuse(RefusalKind::UnknownKind, begin),
    }
}

pub fn schema<P: Pass>(p: &mut P)
    ensures { Runs P.meaning Schema p.old p.new }
{
    p.str(); // module_path
    p.str(); // name
    p.str(); // file
    p.u32() // line
}

pub fn custom_sql<P: Pass>(p: &mut P)
    ensures { Runs P.meaning CustomSql p.old p.new }
{
    p.str(); // sql
    p.str(); // module_path
    p.str(); // full_path
    p.str(); // file
    p.u32(); // line
    p.str(); // name
    p.bool(); // bootstrap
    p.bool(); // finalize
    attribute::positioning_ref_list(p); // requires
    declared::sql_declared_list(p) // creates
}

pub fn function<P: Pass>(p: &mut P)
    ensures { Runs P.meaning Function p.old p.new }
{
    p.str(); // name
    p.str(); // unaliased_name
    p.str(); // module_path
    p.str(); // full_path
    used::pg_extern_argument_list(p); // fn_args
    used::pg_extern_return(p); // fn_return
    pass::option_str(p); // schema
    p.str(); // file
    p.u32(); // line
    attribute::extern_arg_list(p); // extern_attrs
    attribute::search_path(p); // search_path
    attribute::option_operator(p); // operator
    attribute::option_cast(p); // cast
    attribute::to_sql_config(p) // to_sql_config
}

pub fn postgres_type<P: Pass>(p: &mut P)
    ensures { Runs P.meaning PostgresType p.old p.new }
{
    p.str(); // name
    p.str(); // file
    p.u32(); // line
    p.str(); // module_path
    p.str(); // full_path
    p.str(); // type_ident
    p.str(); // in_fn_path
    p.str(); // out_fn_path
    pass::option_str(p); // receive_fn_path
    pass::option_str(p); // send_fn_path
    attribute::to_sql_config(p); // to_sql_config
    pass::option_u32(p) // alignment
}

pub fn postgres_enum<P: Pass>(p: &mut P)
    ensures { Runs P.meaning PostgresEnum p.old p.new }
{
    p.str(); // name
    p.str(); // file
    p.u32(); // line
    p.str(); // module_path
    p.str(); // full_path
    p.str(); // type_ident
    attribute::str_list(p); // variants
    attribute::to_sql_config(p) // to_sql_config
}

pub fn ord_or_hash<P: Pass>(p: &mut P)
    ensures { Runs P.meaning OrdOrHash p.old p.new }
{
    p.str(); // name
    p.str(); // file
    p.u32(); // line
    p.str(); // full_path
    p.str(); // module_path
    p.str(); // type_ident
    attribute::to_sql_config(p) // to_sql_config
}

pub fn aggregate<P: Pass>(p: &mut P)
    ensures { Runs P.meaning Aggregate p.old p.new }
{
    p.str(); // full_path
    p.str(); // module_path
    p.str(); // file
    p.u32(); // line
    p.str(); // name
    p.bool(); // ordered_set
    used::aggregate_type_list(p); // args
    option_aggregate_type_list(p); // direct_args
    used::aggregate_type(p); // stype
    p.str(); // sfunc
    pass::option_str(p); // finalfunc
    option_finalize_modify(p); // finalfunc_modify
    pass::option_str(p); // combinefunc
    pass::option_str(p); // serialfunc
    pass::option_str(p); // deserialfunc
    pass::option_str(p); // initcond
    pass::option_str(p); // msfunc
    pass::option_str(p); // minvfunc
    option_used_type(p); // mstype
    pass::option_str(p); // mfinalfunc
    option_finalize_modify(p); // mfinalfunc_modify
    pass::option_str(p); // minitcond
    pass::option_str(p); // sortop
    option_parallel_option(p); // parallel
    p.bool(); // hypothetical
    attribute::to_sql_config(p) // to_sql_config
}

pub fn trigger<P: Pass>(p: &mut P)
    ensures { Runs P.meaning Trigger p.old p.new }
{
    p.str(); // function_name
    p.str(); // file
    p.u32(); // line
    p.str(); // module_path
    p.str(); // full_path
    attribute::to_sql_config(p) // to_sql_config
}

// One payload alone: one entity, and nothing after it.
pub fn decode_entity(payload: &[u8], t: &mut [u32]) -> Result<Counts, Refusal>
    ensures t_after { result_of result t.new ≡ reading_alone Entity 1 payload.now t.old }
    ensures exact_alone { ExactAlone Entity 1 payload.now t.old (result_of result t.new) }
{
    let mut reader = Reader::new(payload, t);
    entity(&mut reader);
    reader.answer_alone(1)
}
