//! The lines of a life by their commands.
ghost use Rattle.std.specs.Prelude.{◌≡◌, ◌<◌, List, ◌++◌, Some, map, length, slice_get, take, IfOk, OnOk};
ghost use Rattle.std.specs.List.{All, flat_map};
ghost use Rattle.std.specs.Global.{Vec};
ghost use Rattle.tx_model.specs.declared.report.Step.{Step};
ghost use Rattle.tx_model.specs.Rounds.{lines_in};
ghost use Rattle.place_columns.specs.declared.own.Own.{Own};
ghost use Rattle.place_columns.specs.Owned.{own_of};
ghost use Rattle.place_columns.specs.declared.lines.LineAt.{LineAt};
ghost use Rattle.place_columns.specs.declared.lines.OwnLine.{OwnLine};
ghost use Rattle.place_columns.specs.Lined.{AreInOrder, bys_of, line_at, line_by, lines_from, number_of};
ghost use Rattle.place_columns.specs.Rows.{line_of, own_line};

use crate::{Own, own_places};
use std::alloc::Global;
use std::marker::Model;
use tx_events::{By, Memory, make_room};
use tx_model::{KeptLine, Step};

/// A command's line: whose it is, and the number of its step, counted from 0.
#[derive(Clone, Copy, Debug, PartialEq, Eq)]
pub struct LineAt {
    pub by: By,
    pub step: u64,
}

/// A command's line as the table keeps it. No report that is read has so many lines, and each session's commands count from 1.
#[derive(Clone, Copy)]
struct Row {
    session: u32,
    command: u32,
    step: u32,
}

/// A line of a session: of which command it is, and its number.
#[derive(Clone, Copy)]
struct OwnLine {
    command: u32,
    number: u32,
}

/// The lines of a life in order, and each session's. A contract sees the lines.
#[derive(Drop)]
pub struct LineTable {
    rows: Vec<Row>,
    own: Vec<Vec<OwnLine>>,
}

impl Model for LineTable {
    ghost use Rattle.std.specs.Prelude.{List, map};
    ghost use Rattle.place_columns.specs.declared.lines.LineAt.{LineAt};
    ghost use Rattle.place_columns.specs.Rows.{line_of};
    ghost use Rattle.place_columns.specs.Tables.{IsLineTable};

    ghost Value = { List LineAt };

    ghost view = { λ t. map line_of t.rows.items };

    ghost invariant = { λ t. IsLineTable (map line_of t.rows.items) t.own.items };
}

/// The number in 32 bits. No report that is read has so many items.
pub(crate) fn small(number: u64) -> Result<u32, Memory>
    ensures { IfOk result (λ n. n ≡ number) }
{
    match u32::try_from(number) {
        Ok(n) => Ok(n),
        Err(_e) => Err(Memory),
    }
}

/// Adds the lines of a round.
fn add_lines(all: &mut Vec<LineAt>, step: u64, lines: &[KeptLine]) -> Result<(), Memory>
    ensures { OnOk result (all.new.items ≡ all.old.items ++ map (line_at step) lines.now) }
{
    make_room(all, 0, lines.len())?;
    for line in lines {
        all.push(LineAt {
            by: line.by(),
            step,
        })?;
    }
    Ok(())
}

/// The lines of a life, step by step.
#[tactic(auto, using(crate::proofs::LineSteps::lines_more))]
fn all_lines(alloc: Global, steps: &[Step]) -> Result<Vec<LineAt>, Memory>
    ensures { IfOk result (λ lines. lines.items ≡ lines_from 0 steps.now) }
{
    let mut all = Vec::new(alloc);
    for (number, step) in steps.iter().enumerate() {
        if let Step::Round { lines, .. } = step {
            add_lines(&mut all, number as u64, lines.items())?;
        }
    }
    Ok(all)
}

/// Whose lines they are.
fn line_bys(alloc: Global, lines: &[LineAt]) -> Result<Vec<By>, Memory>
    ensures { IfOk result (λ bys. bys.items ≡ bys_of lines.now) }
{
    let mut bys = Vec::with_capacity(alloc, lines.len())?;
    for line in lines {
        bys.push(line.by)?;
    }
    Ok(bys)
}

/// The line as the table keeps it.
fn row_of(line: LineAt) -> Result<Row, Memory>
    ensures { IfOk result (λ row. line_of row ≡ line) }
{
    Ok(Row {
        session: line.by.session,
        command: small(line.by.command)?,
        step: small(line.step)?,
    })
}

/// The lines as the table keeps them.
fn rows_of(alloc: Global, lines: &[LineAt]) -> Result<Vec<Row>, Memory>
    ensures { IfOk result (λ rows. map line_of rows.items ≡ lines.now) }
{
    let mut rows = Vec::with_capacity(alloc, lines.len())?;
    for line in lines {
        rows.push(row_of(*line)?)?;
    }
    Ok(rows)
}

/// A session's lines as the table keeps them.
fn own_lines(alloc: Global, own: &[Own]) -> Result<Vec<OwnLine>, Memory>
    ensures { IfOk result (λ lines. map own_line lines.items ≡ own.now) }
{
    let mut lines = Vec::with_capacity(alloc, own.len())?;
    for o in own {
        lines.push(OwnLine {
            command: small(o.command)?,
            number: small(o.place)?,
        })?;
    }
    Ok(lines)
}

/// Those of all sessions.
fn all_own_lines(alloc: Global, lists: &[Vec<Own>]) -> Result<Vec<Vec<OwnLine>>, Memory>
    ensures { IfOk result (λ all. map (λ (l : Vec OwnLine). map own_line l.items) all.items ≡ map (λ (l : Vec Own). l.items) lists.now) }
{
    let mut all = Vec::with_capacity(alloc, lists.len())?;
    for own in lists {
        all.push(own_lines(alloc, own.as_slice())?)?;
    }
    Ok(all)
}

/// The step of each line.
fn steps_of(alloc: Global, rows: &[Row]) -> Result<Vec<u32>, Memory>
    ensures { IfOk result (λ steps. steps.items ≡ map (λ (l : LineAt). l.step) (map line_of rows.now)) }
{
    let mut steps = Vec::with_capacity(alloc, rows.len())?;
    for row in rows {
        steps.push(row.step)?;
    }
    Ok(steps)
}

/// The number of the command's line. Its session has these.
fn number_in(rows: &[Row], own: &[OwnLine], by: By) -> u64
    requires listed { map own_line own.now ≡ own_of by.session (bys_of (map line_of rows.now)) }
    requires order { AreInOrder (bys_of (map line_of rows.now)) }
    ensures { result ≡ number_of (map line_of rows.now) by }
{
    let at = own.partition_point(|o| u64::from(o.command) < by.command);
    match own.get(at) {
        Some(o) => {
            if u64::from(o.command) == by.command {
                return u64::from(o.number);
            }
            rows.len() as u64
        }
        None => rows.len() as u64,
    }
}

impl LineTable {
    /// The lines of these steps, whose sessions are below this number. In a report each session's commands count from 1.
    pub fn new(alloc: Global, sessions: u32, steps: &[Step]) -> Result<LineTable, Memory>
        requires sessions { All (λ b. b.session < sessions) (map line_by (flat_map lines_in steps.now)) }
        requires order { AreInOrder (map line_by (flat_map lines_in steps.now)) }
        ensures { IfOk result (λ t. t ≡ lines_from 0 steps.now) }
    {
        let lines = all_lines(alloc, steps)?;
        let rows = rows_of(alloc, lines.as_slice())?;
        let bys = line_bys(alloc, lines.as_slice())?;
        drop(lines);
        let places = own_places(alloc, sessions, bys.as_slice())?;
        let own = all_own_lines(alloc, places.as_slice())?;
        Ok(LineTable { rows, own })
    }

    /// How many lines there are.
    pub fn count(&self) -> u64
        ensures { result ≡ length self.now }
    {
        self.rows.len() as u64
    }

    /// The line of this number, counted from 0, if there is one.
    pub fn line(&self, number: u64) -> Option<LineAt>
        ensures { result ≡ slice_get self.now number }
    {
        match self.rows.get(number as usize) {
            Some(row) => Some(LineAt {
                by: By {
                    session: row.session,
                    command: u64::from(row.command),
                },
                step: u64::from(row.step),
            }),
            None => None,
        }
    }

    /// How many lines are of the steps before this one.
    pub fn lines_before(&self, step: u64) -> u64
        ensures { (steps : List Step) → self.now ≡ lines_from 0 steps → result ≡ length (flat_map lines_in (take step steps)) }
    {
        self.rows.partition_point(|r| u64::from(r.step) < step) as u64
    }

    /// The step of each line.
    pub fn steps(&self, alloc: Global) -> Result<Vec<u32>, Memory>
        ensures { IfOk result (λ steps. steps.items ≡ map (λ (l : LineAt). l.step) self.now) }
    {
        steps_of(alloc, self.rows.as_slice())
    }

    /// The number of the command's line, counted from 0. Where it has none, how many lines there are.
    pub fn number(&self, by: By) -> u64
        ensures { result ≡ number_of self.now by }
    {
        match self.own.get(by.session as usize) {
            Some(own) => number_in(self.rows.as_slice(), own.as_slice(), by),
            None => self.rows.len() as u64,
        }
    }
}
