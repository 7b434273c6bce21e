//! The command line.

use clap::{Arg, ArgAction, Command, Error};
use std::alloc::Global;

/// The commands of a script, a line each.
const SCRIPT_LINES: &str = "Lines of the script:
  place c x y o          Place component c at (x, y), turned as o says
  unplace c              Leave component c unplaced
  remaster c m           Give component c the macro m
  add c m                Add a component c of macro m
  remove c               Take component c out
  connect n c p          Connect pin p of component c, or with PIN for c of the design, to net n
  disconnect n c p       Take that terminal from net n
  route n WIRING         Give net n this wiring
  unroute n              Take the wiring of net n out
  block [l] x1 y1 x2 y2  Block routing on layer l, or placement, between two corners
  text a b NEW           Put NEW in the place of the bytes from a up to b
  check                  Report all diagnostics
  length [n]             Tell the length of net n, or of all nets
  box n                  Tell the least rectangle round the shapes of net n
  cell i j l             Tell the area of shapes on layer l in a cell of the grid
  pcell i j              Tell the area of components in a cell of the grid
  show S n               Show the entry n of section S";

/// What the command line asks for, borrowed from its words: paths of files.
#[derive(Drop)]
pub struct Request<'a> {
    pub def: &'a str,
    pub script: &'a str,
    pub out: &'a str,
    pub lefs: Vec<&'a str>,
}

/// An option with a path.
fn path_option<'a>(alloc: Global, name: &'a str, help: &'a str) -> Arg<'a> {
    Arg::new(alloc, name)
        .long(name)
        .value_name("FILE")
        .help(help)
        .required(true)
        .action(ArgAction::Set)
}

/// Reads the command line: the words with the program's name first.
pub fn read_request<'a>(alloc: Global, words: &'a [&'a str]) -> Result<Request<'a>, Error> {
    let def = path_option(alloc, "def", "The DEF text that is edited");
    let script = path_option(alloc, "script", "The script of edits and queries");
    let out = path_option(alloc, "out", "Where the DEF text goes in the end");
    let lefs = Arg::new(alloc, "lef")
        .value_name("LEF")
        .help("The LEF texts, in their order")
        .required(true)
        .action(ArgAction::Append)
        .num_args(1..);
    let command = Command::new(alloc, "defedit")
        .about("Edits a DEF text by a script")
        .after_help(SCRIPT_LINES)
        .arg(def)?
        .arg(script)?
        .arg(out)?
        .arg(lefs)?;
    let matches = command.try_get_matches_from(words)?;
    let mut paths = Vec::new(alloc);
    if let Some(all) = matches.get_strs("lef") {
        for path in all {
            paths.push(*path)?;
        }
    }
    Ok(Request {
        def: matches.get_str("def").unwrap_or(""),
        script: matches.get_str("script").unwrap_or(""),
        out: matches.get_str("out").unwrap_or(""),
        lefs: paths,
    })
}
