//! The generated text: a graph of three rails, and the question for all its paths.
//!
//! Its user calls [`layered`]. A path goes forward along a rail or across to the next one, so the
//! text for n has (n + 1)(n + 2)/2 answers. That it is a text of the language is a law ([`laws`]).
#![tactic(auto)]

ghost use Rattle.std.specs.Prelude.{◌≡◌, ◌<◌, ◌≤◌, ◌↔◌, ◌++◌, Some, IfOk, OnOk, IsErrOf};
ghost use Rattle.and_gen.specs.Layered as specs;

pub mod laws;

use and_model::Text;
pub use laws::generated_texts_are_read;
use std::alloc::{AllocError, Global};
use std::fmt;

/// The largest number of edges along a rail.
const MOST: u32 = 64;

/// What a path is.
const PATHS: &[u8] = b"path(X,X,[X]).\npath(X,Z,[X|P]) :- edge(X,Y), path(Y,Z,P).\n";

/// Why there is no text.
#[derive(Clone, Copy, Debug, PartialEq, Eq)]
pub enum GenFault {
    /// The number is above 64.
    TooBig,
    /// Want of memory.
    Memory,
}

/// A place of the graph.
#[derive(Clone, Copy)]
struct Place {
    /// Its rail, from 0.
    rail: u32,
    /// Its number on the rail, from 0.
    at: u32,
}

impl fmt::Display for Place {
    ghost output = { λ p. Some (specs.place p.rail p.at) };

    fn fmt<W: fmt::Write>(&self, f: &mut fmt::Formatter<W>) -> fmt::Result {
        let rail = self.rail;
        let at = self.at;
        write!(f, "n({rail},{at})")
    }
}

/// Puts the fact that an edge leads from one place to another at the end of the text.
fn write_edge(alloc: Global, text: &mut Text, from: Place, to: Place) -> Result<(), AllocError>
    ensures { OnOk result (text.new ≡ text.old
        ++ specs.edge (specs.place from.rail from.at) (specs.place to.rail to.at)) }
{
    let line = format!(in alloc; "edge({from},{to}).\n")?;
    text.append(line.as_bytes())
}

/// Puts the edges forward along a rail of n + 1 places at the end of the text.
fn write_along(alloc: Global, text: &mut Text, n: u32, rail: u32) -> Result<(), AllocError>
    requires { n ≤ 64 }
    ensures { OnOk result (text.new ≡ text.old ++ specs.along n rail) }
{
    'writing: for at in 0..n {
        write_edge(alloc, text, Place { rail, at }, Place { rail, at: at + 1 })?;
    }
    Ok(())
}

/// Puts the edges across from a rail of n + 1 places to the next at the end of the text.
fn write_across(alloc: Global, text: &mut Text, n: u32, rail: u32) -> Result<(), AllocError>
    requires few { n ≤ 64 }
    requires next { rail < 2 }
    ensures { OnOk result (text.new ≡ text.old ++ specs.across n rail) }
{
    'writing: for at in 0..n + 1 {
        write_edge(
            alloc,
            text,
            Place { rail, at },
            Place { rail: rail + 1, at },
        )?;
    }
    Ok(())
}

/// Puts the question at the end of the text.
fn write_question(alloc: Global, text: &mut Text, n: u32) -> Result<(), AllocError>
    ensures { OnOk result (text.new ≡ text.old ++ specs.question n) }
{
    let from = Place { rail: 0, at: 0 };
    let to = Place { rail: 2, at: n };
    let line = format!(in alloc; "?- path({from},{to},P).\n")?;
    text.append(line.as_bytes())
}

/// The text of the graph with n + 1 places a rail.
fn written(alloc: Global, n: u32) -> Result<Text, AllocError>
    requires { n ≤ 64 }
    ensures { IfOk result (λ text. text ≡ specs.layered n) }
{
    let mut text = Text::new(alloc);
    write_along(alloc, &mut text, n, 0)?;
    write_along(alloc, &mut text, n, 1)?;
    write_along(alloc, &mut text, n, 2)?;
    write_across(alloc, &mut text, n, 0)?;
    write_across(alloc, &mut text, n, 1)?;
    text.append(PATHS)?;
    write_question(alloc, &mut text, n)?;
    Ok(text)
}

/// The generated text for n up to 64.
pub fn layered(alloc: Global, n: u32) -> Result<Text, GenFault>
    ensures text { IfOk result (λ text. text ≡ specs.layered n) }
    ensures too_big { IsErrOf result GenFault.TooBig ↔ (64 < n) }
    ensures within { IfOk result (λ _. n ≤ 64) }
{
    if MOST < n {
        return Err(GenFault::TooBig);
    }
    written(alloc, n).map_err(|_| GenFault::Memory)
}
