//! Both kinds of end may move between threads.
use crate::ends::{Event, Signaller};

fn is_send<T: Send>(_end: &T) {}

fn ends_are_send(signaller: &Signaller, event: &Event) {
    is_send(signaller);
    is_send(event);
}
