//! The edges of the disk stack: where bytes come from and go to, and the images that media are made from.
#![tactic(auto)]

mod cut_image;
mod failing;
mod file_images;
mod file_slot;
mod images;
mod in_source;
mod mem_images;
mod mem_sink;
mod mem_source;
mod out_sink;
mod sink;
mod slot;
mod source;

pub use file_images::FileImages;
pub use images::{Images, TakeFault};
pub use in_source::InSource;
pub use mem_images::MemImages;
pub use mem_sink::MemSink;
pub use mem_source::MemSource;
pub use out_sink::OutSink;
pub use sink::{PutFault, Sink};
pub use source::{Failed, Source};

#[cfg(test)]
mod tests;
