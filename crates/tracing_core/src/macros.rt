//! Metadata written where spans and events are made.

/// Metadata of a span or an event: its name, target, level, fields' names, the identifier of its callsite
/// and its kind, each an expression. It tells the module that it stands in, and neither file nor line.
#[macro_export]
macro_rules! metadata {
    (
        name: $name:expr,
        target: $target:expr,
        level: $level:expr,
        fields: $fields:expr,
        callsite: $callsite:expr,
        kind: $kind:expr $(,)?
    ) => {
        $crate::Metadata::new(
            $name,
            $target,
            $level,
            None,
            None,
            Some(module_path!()),
            $crate::FieldSet::new($fields, $callsite),
            $kind,
        )
    };
}
