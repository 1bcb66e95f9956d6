// The constants of the format. Those of src/section.rs, which tell the parts of an entity apart, are wider than the bytes they
// are compared with, since a cursor holds the value of any leaf.
#![tactic(auto)]

// The most bytes that are read, and the most that are written.
pub const LIMIT: usize = 16777216;

// How many numbers a row has.
pub const ROW_WIDTH: usize = 3;

// The sorts of a row.
pub const SORT_KIND: u32 = 1;

pub const SORT_TAG: u32 = 2;

pub const SORT_FLAG: u32 = 3;

pub const SORT_NUMBER: u32 = 4;

pub const SORT_COUNT: u32 = 5;

pub const SORT_TEXT: u32 = 6;

pub const ENTITY_SCHEMA: u32 = 1;

pub const ENTITY_CUSTOM_SQL: u32 = 2;

pub const ENTITY_FUNCTION: u32 = 3;

pub const ENTITY_TYPE: u32 = 4;

pub const ENTITY_ENUM: u32 = 5;

pub const ENTITY_ORD: u32 = 6;

pub const ENTITY_HASH: u32 = 7;

pub const ENTITY_AGGREGATE: u32 = 8;

pub const ENTITY_TRIGGER: u32 = 9;

pub const POSITIONING_REF_FULL_PATH: u32 = 1;

pub const POSITIONING_REF_NAME: u32 = 2;

pub const SQL_DECLARED_TYPE: u32 = 1;

pub const SQL_DECLARED_ENUM: u32 = 2;

pub const SQL_DECLARED_FUNCTION: u32 = 3;

pub const SQL_MAPPING_AS: u32 = 1;

pub const SQL_MAPPING_ARRAY: u32 = 2;

pub const SQL_MAPPING_NUMERIC: u32 = 3;

pub const SQL_MAPPING_COMPOSITE: u32 = 4;

pub const SQL_MAPPING_SKIP: u32 = 5;

pub const RETURNS_ONE: u32 = 1;

pub const RETURNS_SET_OF: u32 = 2;

pub const RETURNS_TABLE: u32 = 3;

pub const ARG_ERROR_SET_OF: u32 = 1;

pub const ARG_ERROR_TABLE: u32 = 2;

pub const ARG_ERROR_NESTED_ARRAY: u32 = 3;

pub const ARG_ERROR_BARE_U8: u32 = 4;

pub const ARG_ERROR_SKIP_IN_ARRAY: u32 = 5;

pub const ARG_ERROR_DATUM: u32 = 6;

pub const ARG_ERROR_NOT_VALID: u32 = 7;

pub const RESULT_OK: u32 = 1;

pub const RESULT_ERR: u32 = 2;

pub const TYPE_ORIGIN_THIS_EXTENSION: u32 = 1;

pub const TYPE_ORIGIN_EXTERNAL: u32 = 2;

pub const RETURNS_ERROR_NESTED_SET_OF: u32 = 1;

pub const RETURNS_ERROR_NESTED_TABLE: u32 = 2;

pub const RETURNS_ERROR_NESTED_ARRAY: u32 = 3;

pub const RETURNS_ERROR_SET_OF_CONTAINING_TABLE: u32 = 4;

pub const RETURNS_ERROR_TABLE_CONTAINING_SET_OF: u32 = 5;

pub const RETURNS_ERROR_SET_OF_IN_ARRAY: u32 = 6;

pub const RETURNS_ERROR_TABLE_IN_ARRAY: u32 = 7;

pub const RETURNS_ERROR_BARE_U8: u32 = 8;

pub const RETURNS_ERROR_SKIP_IN_ARRAY: u32 = 9;

pub const RETURNS_ERROR_DATUM: u32 = 10;

pub const EXTERN_ARG_CREATE_OR_REPLACE: u32 = 1;

pub const EXTERN_ARG_IMMUTABLE: u32 = 2;

pub const EXTERN_ARG_STRICT: u32 = 3;

pub const EXTERN_ARG_STABLE: u32 = 4;

pub const EXTERN_ARG_VOLATILE: u32 = 5;

pub const EXTERN_ARG_RAW: u32 = 6;

pub const EXTERN_ARG_NO_GUARD: u32 = 7;

pub const EXTERN_ARG_SECURITY_DEFINER: u32 = 8;

pub const EXTERN_ARG_SECURITY_INVOKER: u32 = 9;

pub const EXTERN_ARG_PARALLEL_SAFE: u32 = 10;

pub const EXTERN_ARG_PARALLEL_UNSAFE: u32 = 11;

pub const EXTERN_ARG_PARALLEL_RESTRICTED: u32 = 12;

pub const EXTERN_ARG_SHOULD_PANIC: u32 = 13;

pub const EXTERN_ARG_SCHEMA: u32 = 14;

pub const EXTERN_ARG_SUPPORT: u32 = 15;

pub const EXTERN_ARG_NAME: u32 = 16;

pub const EXTERN_ARG_COST: u32 = 17;

pub const EXTERN_ARG_REQUIRES: u32 = 18;

pub const OPERATOR_CAST_DEFAULT: u32 = 1;

pub const OPERATOR_CAST_ASSIGNMENT: u32 = 2;

pub const OPERATOR_CAST_IMPLICIT: u32 = 3;

pub const EXTERN_RET_NONE: u32 = 1;

pub const EXTERN_RET_TYPE: u32 = 2;

pub const EXTERN_RET_SET_OF: u32 = 3;

pub const EXTERN_RET_ITERATED: u32 = 4;

pub const EXTERN_RET_TRIGGER: u32 = 5;

pub const AGGREGATE_FINALIZE_READ_ONLY: u32 = 1;

pub const AGGREGATE_FINALIZE_SHAREABLE: u32 = 2;

pub const AGGREGATE_FINALIZE_READ_WRITE: u32 = 3;

pub const AGGREGATE_PARALLEL_SAFE: u32 = 1;

pub const AGGREGATE_PARALLEL_RESTRICTED: u32 = 2;

pub const AGGREGATE_PARALLEL_UNSAFE: u32 = 3;
