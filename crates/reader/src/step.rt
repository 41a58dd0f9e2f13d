// Steps of a cursor.
use crate::error::Error;

// What a step answers, none at the end, and the cursor after it (SPECIFICATION 1.6: a step takes a cursor and hands back the cursor after it,
// beside its answer). Each cursor's `next` makes one of its own `advance`, in three lines: a function for all would take a closure, and be as
// long in each.
#[derive(Clone, Copy)]
pub struct Step<T, C> {
    pub answer: Result<Option<T>, Error>,
    pub cursor: C,
}
