// The book of a judged list, put together: its sizes, by counting, and then three writers, each on its own part of the room. What a kind of
// book has of its own is its rule, its table and its mark. A table has as many records as there are nodes, whatever its form; only rows are
// written here.
#![tactic(auto)]

ghost use Rattle.std.specs.Prelude.{◌≡◌, ◌≤◌, length};
ghost use Rattle.format.specs.Book.{book};
ghost use Rattle.format.specs.Outcomes.{over};
ghost use Rattle.format.specs.Kinds.{rule_of};
ghost use Rattle.kinds.specs.Known.{kind_by};
ghost use Rattle.records.specs.Lists.{names};
ghost use Rattle.records.specs.Notes.{lens_of, shares_of};
ghost use Rattle.counting.specs.Counting.{CountAsk};
ghost use Rattle.nodes.specs.Writing.{NodesAsk};
ghost use Rattle.assembly.specs.Plans.{PlanAsk};
ghost use Rattle.assembly.specs.Whole.{RecordCount, Sized, TablePut};

use kinds::{Form, Kind};
use records::Note;

// Where the tables of a book begin, its number of nodes, and its length.
#[derive(Clone, Copy)]
pub struct Sizes {
    pub blocks: usize,
    pub nodes: usize,
    pub count: usize,
    pub total: usize,
}

// A judged list with what was noted of its names, and what is to be built of it: a book of this kind, in blocks of so many names.
#[derive(Clone, Copy)]
pub struct Plan<'a> {
    pub kind: Kind,
    pub list: &'a [u8],
    pub names: usize,
    pub notes: &'a [Note],
    pub block: usize,
}

impl<'a> Plan<'a> {
    // How many records the table has: in every form as many as there are nodes.
    fn count_records(&self) -> usize
        requires { CountAsk self.now.names (shares_of self.now.notes.now) }
        ensures { RecordCount (kind_by self.now.kind) self.now.names (shares_of self.now.notes.now) result }
    {
        counting::count_nodes(self.names, self.notes)
    }

    // The table of a full book, where the part is as long: an arm for each form of table. Columns are not written here: a book by columns is
    // made of a full one.
    fn write_records(&self, part: &mut [u8])
        requires { NodesAsk (rule_of (kind_by self.now.kind)) self.now.list.now self.now.names (lens_of self.now.notes.now) (shares_of self.now.notes.now) }
        ensures { TablePut (kind_by self.now.kind) self.now.list.now part.old part.new }
    {
        let rule = self.kind.rule();
        let form = self.kind.form();
        match form {
            Form::Rows => {
                nodes::write_nodes(rule, self.list, self.names, self.notes, part);
            }
            Form::Columns => {}
        }
    }

    // The sizes, by counting.
    pub fn sizes(&self) -> Sizes
        requires { PlanAsk self.now }
        ensures { Sized (kind_by self.now.kind) self.now.list.now self.now.block result.blocks result.nodes result.count result.total }
    {
        let survey = blocks::survey_blocks(self.list, self.names, self.notes, self.block);
        let count = self.count_records();
        let form = self.kind.form();
        let size = form.record_size();
        let nodes = survey.size + 2 * survey.count;
        Sizes {
            blocks: survey.size,
            nodes,
            count,
            total: nodes + count * size + trailer::SIZE,
        }
    }

    // The book, each part from where the one before ended.
    pub fn write_book(&self, s: Sizes, room: &mut [u8])
        requires plan_ask { PlanAsk self.now }
        requires sized { Sized (kind_by self.now.kind) self.now.list.now self.now.block s.blocks s.nodes s.count s.total × (s.total ≤ length room.old) }
        ensures { room.new ≡ over (book (kind_by self.now.kind) self.now.block (names self.now.list.now)) room.old }
    {
        let blocks = s.blocks;
        let nodes = s.nodes;
        let total = s.total;
        let end = total - trailer::SIZE;
        blocks::write_blocks(
            self.list,
            self.names,
            self.notes,
            self.block,
            blocks,
            &mut room[0..nodes],
        );
        self.write_records(&mut room[nodes..end]);
        trailer::put_trailer(
            &mut room[end..total],
            self.names,
            self.block,
            blocks,
            nodes,
            s.count,
            total,
            self.kind,
        );
    }
}
