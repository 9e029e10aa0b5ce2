//! Macros that decode structures field by field, and test their fields, for their `impl Wire`, here
//! and in the crates above: the caller imports the macro, and [`ua_builtin::Wire`].

/// Reads the fields of a structure in order: the first where it stands, the others as nested pairs.
#[macro_export]
macro_rules! read_fields {
    (pairs $last:ident) => {
        $last
    };
    (pairs $first:ident, $($field:ident),+) => {
        ($first, read_fields!(pairs $($field),+))
    };
    ($alloc:expr, $src:expr, $depth:expr => $structure:ident { $first:ident }) => {{
        let $first = Wire::read_value($alloc, $src, $depth)?;
        Ok($structure { $first })
    }};
    ($alloc:expr, $src:expr, $depth:expr => $structure:ident { $first:ident, $($field:ident),+ }) => {{
        let $first = Wire::read_value($alloc, $src, $depth)?;
        let read_fields!(pairs $($field),+) = Wire::read_value($alloc, $src, $depth)?;
        Ok($structure { $first, $($field),+ })
    }};
}

/// Whether each field has a canonical encoding.
#[macro_export]
macro_rules! are_encodable {
    ($value:expr => $first:ident $(, $field:ident)*) => {
        $value.$first.is_encodable() $(&& $value.$field.is_encodable())*
    };
}
