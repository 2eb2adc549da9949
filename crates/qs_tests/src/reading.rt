//! Small inputs read by small shapes.

mod any;
mod broken;
mod enums;
mod lists;
mod maps;
mod no_tree;
mod nothing;
mod numbers;
mod options;
mod scalars;
mod several;
mod strict;
mod structs;
