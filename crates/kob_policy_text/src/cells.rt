//! The cells of a row that commas separate.

ghost use Rattle.std.specs.Prelude.{◌≡◌, OnOk};
ghost use Rattle.kob_policy_text.specs.Cells as seen;
ghost use Rattle.kob_policy_text.specs.Cells.{at_spot};
ghost use Rattle.kob_policy_text.specs.Cells.{cells_in, no_cells};
ghost use Rattle.kob_policy_text.specs.Cells.{with_byte, with_cell_byte, with_end};
ghost use Rattle.kob_script.specs.Words.{GivesSeen};

use kob_names::Bytes;
use kob_script::{FaultKind, LineError};
use std::alloc::{AllocError, Global};
use std::marker::Model;

/// Where the next byte of a row is. `Behind` is behind a double quote in a quoted cell, and
/// `Misquoted` behind one that no cell may have.
#[derive(Clone, Copy)]
pub enum Spot {
    Begin,
    Bare,
    Quoted,
    Behind,
    Misquoted,
}

/// The cells that ended, and the one that began.
#[derive(Drop)]
struct Cells {
    ended: Vec<Bytes>,
    cell: Vec<u8>,
    spot: Spot,
}

impl Model for Cells {
    ghost use Rattle.kob_policy_text.specs.Cells as seen;

    ghost Value = { seen.Cells };

    ghost view = { λ cells. record {
      ended = cells.ended.items;
      cell = cells.cell.items;
      spot = cells.spot;
    } };
}

impl Cells {
    fn new(alloc: Global) -> Cells
        ensures { result ≡ no_cells }
    {
        Cells {
            ended: Vec::new(alloc),
            cell: Vec::new(alloc),
            spot: Spot::Begin,
        }
    }

    fn end(&mut self, alloc: Global) -> Result<(), AllocError>
        ensures { OnOk result (self.new ≡ with_end self.old) }
    {
        self.ended.push(Bytes::copied(alloc, &self.cell)?)?;
        self.cell.clear();
        self.spot = Spot::Begin;
        Ok(())
    }

    fn add(&mut self, spot: Spot, byte: u8) -> Result<(), AllocError>
        ensures { OnOk result (self.new ≡ with_byte self.old spot byte) }
    {
        self.spot = spot;
        self.cell.push(byte)?;
        Ok(())
    }

    fn go(&mut self, spot: Spot) -> Result<(), AllocError>
        ensures { OnOk result (self.new ≡ at_spot self.old spot) }
    {
        self.spot = spot;
        Ok(())
    }

    #[tactic(auto, unfolding(crate::specs::Cells::with_cell_byte))]
    fn read(&mut self, alloc: Global, byte: u8) -> Result<(), AllocError>
        ensures { OnOk result (self.new ≡ with_cell_byte self.old byte) }
    {
        match self.spot {
            Spot::Begin => match byte {
                b',' => self.end(alloc),
                b'"' => self.go(Spot::Quoted),
                _ => self.add(Spot::Bare, byte),
            },
            Spot::Bare => match byte {
                b',' => self.end(alloc),
                b'"' => self.go(Spot::Misquoted),
                _ => self.add(Spot::Bare, byte),
            },
            Spot::Quoted => match byte {
                b'"' => self.go(Spot::Behind),
                _ => self.add(Spot::Quoted, byte),
            },
            Spot::Behind => match byte {
                b',' => self.end(alloc),
                b'"' => self.add(Spot::Quoted, byte),
                _ => self.go(Spot::Misquoted),
            },
            Spot::Misquoted => Ok(()),
        }
    }
}

/// The cells of a row, without their quotes. The fault is `BadLine`: a double quote that does not
/// end, or one in a cell that does not begin with it.
#[tactic(auto, using(crate::proofs::Passing::reads_cells, crate::proofs::Passing::cells_end))]
pub fn cells_in(alloc: Global, line: &[u8]) -> Result<Vec<Bytes>, LineError>
    ensures { GivesSeen (λ cells. cells.items) result (cells_in line.now) }
{
    let mut cells = Cells::new(alloc);
    for byte in line {
        cells.read(alloc, *byte)?;
    }
    match cells.spot {
        Spot::Begin | Spot::Bare | Spot::Behind => {
            cells.end(alloc)?;
            Ok(cells.ended)
        }
        Spot::Quoted | Spot::Misquoted => Err(LineError::Fault(FaultKind::BadLine)),
    }
}
