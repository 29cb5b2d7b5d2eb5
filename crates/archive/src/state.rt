// A sheet between two calls.
use sheet::{Closed, Open};

#[derive(Drop)]
pub(crate) enum State {
    Opened(Open),
    Shut(Closed),
}
