// Used types, and what contains them: the arguments and returns of functions, the types of aggregates.
#![tactic(auto)]

ghost use Rattle.layout.specs.Entities.{UsedType, PgExternArgument, PgExternArgumentList, PgExternReturn, AggregateType, AggregateTypeList};
ghost use Rattle.pass.specs.Pass.{Runs};

use pass::Pass;
use table::RefusalKind;

pub fn used_type<P: Pass>(p: &mut P)
    ensures { Runs P.meaning UsedType p.old p.new }
{
    p.str(); // ty_source
    p.str(); // full_path
    pass::option_str(p); // composite_type
    p.bool(); // variadic
    pass::option_str(p); // default
    p.bool(); // optional
    metadata::function_metadata_type(p) // metadata
}

pub fn pg_extern_argument<P: Pass>(p: &mut P)
    ensures { Runs P.meaning PgExternArgument p.old p.new }
{
    p.str(); // pattern
    used_type(p) // used_ty
}

pub fn pg_extern_argument_list<P: Pass>(p: &mut P)
    ensures { Runs P.meaning PgExternArgumentList p.old p.new }
{
    pass::list(p, pg_extern_argument::<P>)
}

// A function's return. The items of an iterated one have the layout of an aggregate's types.
pub fn pg_extern_return<P: Pass>(p: &mut P)
    ensures { Runs P.meaning PgExternReturn p.old p.new }
{
    let begin = p.place();
    match p.u8() {
        layout::EXTERN_RET_NONE => {}
        layout::EXTERN_RET_TYPE..=layout::EXTERN_RET_SET_OF => used_type(p),
        layout::EXTERN_RET_ITERATED => aggregate_type_list(p),
        layout::EXTERN_RET_TRIGGER => {}
        _ => p.refuse(RefusalKind::UnknownTag, begin),
    }
}

pub fn aggregate_type<P: Pass>(p: &mut P)
    ensures { Runs P.meaning AggregateType p.old p.new }
{
    pass::option_str(p); // name
    used_type(p) // used_ty
}

pub fn aggregate_type_list<P: Pass>(p: &mut P)
    ensures { Runs P.meaning AggregateTypeList p.old p.new }
{
    pass::list(p, aggregate_type::<P>)
}
