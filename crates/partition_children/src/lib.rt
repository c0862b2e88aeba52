//! Partitions as disks of their own: reads a disk's partition table, and tells its children's views, nodes and lines.
#![tactic(auto)]

mod child_list;
mod children;
mod good_header;
mod gpt;
mod law;
mod lines;
mod mbr;
mod probing;
mod reading;

pub use children::{find, node_of, view_of};
pub use law::{child_numbers_differ, child_requests_stay_inside, child_views_lie};
pub use lines::{ShowFault, show};
pub use probing::{ProbeFault, probe};

#[cfg(test)]
mod tests;
