//! Checks of a design over statements that were read once: where its components lie and what they stand in, and how many entries
//! its sections have.
//!
//! Begin with `surroundings::surroundings_of`, what the components of a design stand in. `place_lines::put_components` puts the lines on
//! rows, the die and fences of the components among some statements, and what a sweep over many knows of each; so the statements needn't all
//! be there at once. Then `between::put_lines_between` puts a line for each pair of these that share area, and one for each that lies on a
//! rectangle of `keep_outs::keep_outs_of`, whose rectangles are those of `blocked_shapes`: it sorts them from below (`sweep`), and passes
//! over those that are apart (`overlap`, `blocked`). `rows` looks rows up by their lower edge (`row_index`), and `fences` the groups of a
//! component by its name (`assignment_table`), passing over fences whose hull is apart from its box (`hull`). `count::counts_of` puts a line
//! for each section whose header says another number. Who follows a change asks for the lines of one component in its surroundings, or of one
//! rectangle: `place_lines::lines_in`, `blocked::put_blockage` and `one::put_own_lines`; `boxes::boxes_among` has the components among some of
//! the statements. From one edit to the next it keeps the surroundings by `kept_surroundings`, which lends them again.
//! What they say is defined in `design_rules/specs`: `Boxes`, `Surroundings`, `OverlapLines`, `PlaceLines` and `CountLines`;
//! `specs/Views`, `PlaceViews` and `IndexViews` say how components and surroundings are seen there. No text is read here:
//! statements come from `def_reader`.
//!
//! Components lend their names from the text and the library; lines are of `report_lines` and lend nothing. What asks for a
//! number of database units per micron wants it from 1 to 100000, as each text has that reads. The one error is `AllocError`;
//! lines that were handed in may then have some of the new ones.
#![tactic(auto)]

/// What `?` does with a `Result` whose error is the caller's. Written as a `match` it has less to prove at each way out.
macro_rules! or_error {
    ($result:expr) => {
        match $result {
            Ok(value) => value,
            Err(error) => return Err(error),
        }
    };
}

pub mod assigned;
pub mod assignment_table;
pub mod between;
pub mod blocked;
pub mod blocked_shapes;
pub mod boxes;
mod copying;
mod corners;
pub mod count;
pub mod fence;
mod fences;
pub mod floor;
pub mod groups;
mod hull;
pub mod keep_outs;
mod kept_assigned;
mod kept_assignments;
mod kept_fence;
mod kept_row;
mod kept_rows;
pub mod kept_surroundings;
pub mod last_macros;
mod names;
pub mod one;
mod outline;
mod overlap;
pub mod place_lines;
pub mod placed_box;
pub mod placed_row;
mod pushing;
pub mod regions;
pub mod row_index;
mod rows;
pub mod scale;
mod sought;
pub mod surroundings;
mod sweep;
pub mod swept_box;
