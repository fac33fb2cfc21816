// The static library for C: an export for each call of include/wedgepetal.h, with the contract of the function that it calls.
#![tactic(auto)]

mod comparison;
mod decoder;
mod frame;
mod picture;
mod recordings;
mod shot_tiles;
mod streams;
mod tile_maps;
mod whole_shot;
