// Parts of a search for tables.
ghost use Rattle.std.specs.Prelude.{◌≡◌, []};
ghost use Rattle.sims_one.specs.Asked.{asked, IsAsked};
ghost use Rattle.sims_one.specs.Fronts.{IsOpen, lists_in};

use crate::parts::Part;
use crate::request::Request;
use crate::within::tables_within;
use ports::NoMemory;
use std::marker::Model;

/// The part of a search that looks for the tables behind a front part.
#[derive(Drop)]
pub struct TablePart<'a> {
    request: Request<'a>,
    front: Vec<usize>,
    tables: Vec<Vec<usize>>,
}

impl<'a> Model for TablePart<'a> {
    ghost use Rattle.sims_one.specs.Asked.{asked, IsAsked};
    ghost use Rattle.sims_one.specs.Fronts.{Sought, lists_in, IsOpen};

    ghost Value = { Sought };

    ghost view = { λ s. record {
      asked = asked s.request;
      front = s.front.items;
      tables = lists_in s.tables.items;
    } };

    ghost invariant = { λ s. record {
      sound : IsAsked (asked s.request);
      opened : IsOpen (asked s.request) s.front.items;
    } };
}

impl<'a> TablePart<'a> {
    /// The part of this front part.
    pub fn new(request: &Request<'a>, front: Vec<usize>) -> TablePart<'a>
        requires asked { IsAsked (asked request.now) }
        requires opened { IsOpen (asked request.now) front.items }
        ensures { result ≡ record {
          asked = asked request.now;
          front = front.items;
          tables = [];
        } }
    {
        TablePart {
            request: *request,
            front,
            tables: Vec::new(request.alloc),
        }
    }

    /// What it has found.
    pub fn into_tables(self) -> Vec<Vec<usize>>
        ensures { lists_in result.items ≡ self.entry.tables }
    {
        self.tables
    }
}

impl<'a> Part for TablePart<'a> {
    ghost use Rattle.std.specs.Prelude.{List, ℕ};
    ghost use Rattle.sims_one.specs.Asked.{Asked, AreTablesWithin};

    ghost Task = { Asked × List ℕ };

    ghost task = { λ s. (s.asked, s.front) };

    ghost is_done = { λ s. AreTablesWithin s.asked s.front s.tables };

    fn run(&mut self) -> Result<(), NoMemory> {
        self.tables = tables_within(&self.request, self.front.as_slice(), usize::MAX)?;
        Ok(())
    }
}
