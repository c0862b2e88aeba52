mod bench;
mod changes;
mod failures;
mod groups;
mod late;
mod rows;
mod shapes;
mod works;
