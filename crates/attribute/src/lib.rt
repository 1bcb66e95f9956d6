// The parts of entities that contain no type: positioning refs, to-SQL, the attributes of functions.
#![tactic(auto)]

ghost use Rattle.layout.specs.Entities.{PositioningRef, PositioningRefList, ToSqlConfig, ExternArg, ExternArgList, SearchPath, StrList};
ghost use Rattle.layout.specs.Entities.{Operator, OptionOperator, Cast, OptionCast};
ghost use Rattle.pass.specs.Pass.{Runs};

use pass::Pass;
use table::RefusalKind;

pub fn positioning_ref<P: Pass>(p: &mut P)
    ensures { Runs P.meaning PositioningRef p.old p.new }
{
    let begin = p.place();
    match p.u8() {
        layout::POSITIONING_REF_FULL_PATH..=layout::POSITIONING_REF_NAME => p.str(),
        _ => p.refuse(RefusalKind::UnknownTag, begin),
    }
}

pub fn positioning_ref_list<P: Pass>(p: &mut P)
    ensures { Runs P.meaning PositioningRefList p.old p.new }
{
    pass::list(p, positioning_ref::<P>)
}

pub fn to_sql_config<P: Pass>(p: &mut P)
    ensures { Runs P.meaning ToSqlConfig p.old p.new }
{
    p.bool(); // enabled
    pass::option_str(p) // content
}

// A function's attribute.
pub fn extern_arg<P: Pass>(p: &mut P)
    ensures { Runs P.meaning ExternArg p.old p.new }
{
    let begin = p.place();
    match p.u8() {
        layout::EXTERN_ARG_CREATE_OR_REPLACE..=layout::EXTERN_ARG_PARALLEL_RESTRICTED => {}
        layout::EXTERN_ARG_SHOULD_PANIC..=layout::EXTERN_ARG_SCHEMA => p.str(),
        layout::EXTERN_ARG_SUPPORT => positioning_ref(p),
        layout::EXTERN_ARG_NAME..=layout::EXTERN_ARG_COST => p.str(),
        layout::EXTERN_ARG_REQUIRES => positioning_ref_list(p),
        _ => p.refuse(RefusalKind::UnknownTag, begin),
    }
}

pub fn extern_arg_list<P: Pass>(p: &mut P)
    ensures { Runs P.meaning ExternArgList p.old p.new }
{
    pass::list(p, extern_arg::<P>)
}

pub fn search_path<P: Pass>(p: &mut P)
    ensures { Runs P.meaning SearchPath p.old p.new }
{
    pass::option(p, str_list::<P>)
}

pub fn str_list<P: Pass>(p: &mut P)
    ensures { Runs P.meaning StrList p.old p.new }
{
    pass::list(p, P::str)
}

pub fn operator<P: Pass>(p: &mut P)
    ensures { Runs P.meaning Operator p.old p.new }
{
    pass::option_str(p); // opname
    pass::option_str(p); // commutator
    pass::option_str(p); // negator
    pass::option_str(p); // restrict
    pass::option_str(p); // join
    p.bool(); // hashes
    p.bool(); // merges
}

pub fn option_operator<P: Pass>(p: &mut P)
    ensures { Runs P.meaning OptionOperator p.old p.new }
{
    pass::option(p, operator::<P>)
}

pub fn cast<P: Pass>(p: &mut P)
    ensures { Runs P.meaning Cast p.old p.new }
{
    let begin = p.place();
    match p.u8() {
        layout::OPERATOR_CAST_DEFAULT..=layout::OPERATOR_CAST_IMPLICIT => {}
        _ => p.refuse(RefusalKind::UnknownTag, begin),
    }
}

pub fn option_cast<P: Pass>(p: &mut P)
    ensures { Runs P.meaning OptionCast p.old p.new }
{
    pass::option(p, cast::<P>)
}
