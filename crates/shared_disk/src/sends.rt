//! The pen, its notes, a plate, hands and seats may move between threads, and a shared disk may be lent to them.
use crate::hands::Hand;
use crate::name::DiskName;
use crate::pens::{Note, Pen};
use crate::plate::Plate;
use crate::seats::Seat;
use crate::shared::SharedDisk;
use medium::Medium;

fn is_send<T: Send>(_end: &T) {}

fn is_sync<T: Sync>(_end: &T) {}

fn ends_are_send(pen: &Pen, note: &Note, plate: &Plate) {
    is_send(pen);
    is_send(note);
    is_send(plate);
}

fn holders_are_send<N: DiskName + Send>(hand: &Hand<N>, seat: &Seat<N>) {
    is_send(hand);
    is_send(seat);
}

fn shared_disk_is_sync<M: Medium + Send, N: DiskName + Send + Sync>(shared: &SharedDisk<M, N>) {
    is_send(shared);
    is_sync(shared);
}
