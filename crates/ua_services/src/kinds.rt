//! Code that is the same for each kind of message.

/// A match of a message, the same for each kind: what it holds and the number of its encoding have
/// the names that are given. As the macros below, it takes the kinds from a macro that has them, as
/// [`requests`](crate::requests) and [`responses`](crate::responses).
#[macro_export]
macro_rules! by_kind {
    ($all:ident $kinds:ident [$($kind:ident($held:ident) = $of:literal,)+] $message:expr, $structure:ident,
        $number:ident => $answer:expr) => {
        match $message {
            $($all::$kind($structure) => {
                let $number = $of;
                $answer
            })+
        }
    };
}

/// The name of the structure that messages of a kind hold.
macro_rules! name_of {
    ($all:ident $kinds:ident [$($kind:ident($held:ident) = $of:literal,)+] $of_kind:expr) => {
        match $of_kind {
            $($kinds::$kind => stringify!($held),)+
        }
    };
}

/// The kind of a message.
macro_rules! kind_of {
    ($all:ident $kinds:ident [$($kind:ident($held:ident) = $of:literal,)+] $message:expr) => {
        match $message {
            $($all::$kind(_) => $kinds::$kind,)+
        }
    };
}

/// The kind whose encoding has a number, if there is one.
macro_rules! numbered {
    ($all:ident $kinds:ident [$($kind:ident($held:ident) = $of:literal,)+] $number:expr) => {
        match $number {
            $($of => Some($kinds::$kind),)+
            _ => None,
        }
    };
}

/// The number of the encoding of a kind.
macro_rules! number_of {
    ($all:ident $kinds:ident [$($kind:ident($held:ident) = $of:literal,)+] $of_kind:expr) => {
        match $of_kind {
            $($kinds::$kind => $of,)+
        }
    };
}

/// The message of a kind, of the structure that is read, after what is known of that kind.
macro_rules! message_of_kind {
    ($all:ident $kinds:ident [$($kind:ident($held:ident) = $of:literal,)+] $of_kind:expr, $known:ident, $read:expr) => {
        match $of_kind {
            $($kinds::$kind => {
                $known($kinds::$kind);
                let structure = $read?;
                Ok($all::$kind(structure))
            })+
        }
    };
}

/// The structure of a kind, skipped.
macro_rules! skip_of_kind {
    ($all:ident $kinds:ident [$($kind:ident($held:ident) = $of:literal,)+] $of_kind:expr, $alloc:expr, $src:expr,
        $depth:expr) => {
        match $of_kind {
            $($kinds::$kind => skip_structure!($held, $alloc, $src, $depth),)+
        }
    };
}

/// A structure, skipped. A ServiceFault is its header (OPC 10000-4, 7.35).
macro_rules! skip_structure {
    (ServiceFault, $alloc:expr, $src:expr, $depth:expr) => {
        ResponseHeader::skip_value($alloc, $src, $depth)
    };
    ($held:ident, $alloc:expr, $src:expr, $depth:expr) => {
        $held::skip_value($alloc, $src, $depth)
    };
}

pub(crate) use kind_of;
pub(crate) use message_of_kind;
pub(crate) use name_of;
pub(crate) use number_of;
pub(crate) use numbered;
pub(crate) use skip_of_kind;
pub(crate) use skip_structure;
