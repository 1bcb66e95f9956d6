// The declarations of custom SQL.
#![tactic(auto)]

ghost use Rattle.layout.specs.Entities.{SqlDeclared, SqlDeclaredList, DeclaredType, DeclaredSql};
ghost use Rattle.pass.specs.Pass.{Runs};

use pass::Pass;
use table::RefusalKind;

// A declaration: its kind is judged only after its name.
pub fn sql_declared<P: Pass>(p: &mut P)
    ensures { Runs P.meaning SqlDeclared p.old p.new }
{
    let begin = p.place();
    let kind = p.u8();
    p.str(); // name
    match kind {
        layout::SQL_DECLARED_TYPE..=layout::SQL_DECLARED_ENUM => declared_type(p),
        layout::SQL_DECLARED_FUNCTION => {}
        _ => p.refuse(RefusalKind::UnknownTag, begin),
    }
}

pub fn declared_type<P: Pass>(p: &mut P)
    ensures { Runs P.meaning DeclaredType p.old p.new }
{
    p.str(); // type_ident
    declared_sql(p) // sql
}

// The result of a declaration: all of it is passed over, and it must then be a mapping As or Numeric, as its first two tags say.
pub fn declared_sql<P: Pass>(p: &mut P)
    ensures { Runs P.meaning DeclaredSql p.old p.new }
{
    let begin = p.place();
    metadata::argument_sql(p);
    if p.is_refused() {
        return;
    }
    if p.seen(begin, 0) != layout::RESULT_OK {
        return p.refuse(RefusalKind::DeclaredError, begin);
    }
    match p.seen(begin, 1) {
        layout::SQL_MAPPING_AS => {}
        layout::SQL_MAPPING_NUMERIC => {}
        _ => p.refuse(RefusalKind::NoSqlText, begin),
    }
}

pub fn sql_declared_list<P: Pass>(p: &mut P)
    ensures { Runs P.meaning SqlDeclaredList p.old p.new }
{
    pass::list(p, sql_declared::<P>)
}
