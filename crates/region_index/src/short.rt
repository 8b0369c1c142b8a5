//! Lists of which most are short, since an edit makes them.

/// Items in order: the one that there may be, which stands in place, or those of a list.
#[derive(Drop)]
pub(crate) enum Short<T> {
    One(Option<T>),
    Many(Vec<T>),
}
