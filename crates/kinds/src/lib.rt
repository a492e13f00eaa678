// The kinds of book as the code has them: the rule, the form of table and the mark of each. What varies from kind to kind is asked for
// here, so a new kind is one arm more in each of these functions. A new form is one arm more in those that go by a form, where the trailer
// tells how far apart a table's numbers stand, and where a table is written or turned. Check and search have no arms.
#![tactic(auto)]

ghost use Rattle.std.specs.Prelude.{◌≡◌, ◌≤◌};
ghost use Rattle.format.specs.Full.{is_full};
ghost use Rattle.format.specs.Kinds.{all_kinds, form_of, marked_as, record_size};
ghost use Rattle.format.specs.Nodes.{node_size};
ghost use Rattle.symbols.specs.Rules.{by_kind};
ghost use Rattle.kinds.specs.Known.{MarkTells, form_by, kind_by, kind_for, mark_back};

use symbols::Rule;

// The kind of a book.
#[derive(Clone, Copy, PartialEq, Eq)]
pub enum Kind {
    // Document 01's own.
    Plain,
    // Capital letters count as small ones.
    Folded,
    // Document 01's rule, and the node table by columns.
    Columns,
}

// What stands between the block table and the trailer.
#[derive(Clone, Copy, PartialEq, Eq)]
pub enum Form {
    // Node records, one behind the other.
    Rows,
    // The same numbers, column by column.
    Columns,
}

// The backs of the marks, as numbers: 4B 32 for plain books, 46 32 for folded ones, 43 32 for those by columns.
const PLAIN: usize = 0x324B;

const FOLDED: usize = 0x3246;

const COLUMNS: usize = 0x3243;

impl Kind {
    // The kind that the third byte of a mark tells. Of a byte that is in no mark it says Plain; whether the whole mark stands is asked elsewhere.
    pub fn marked(third: u8) -> Kind
        ensures { result ≡ kind_for (marked_as third all_kinds) }
    {
        match third {
            0x46 => Kind::Folded,
            0x43 => Kind::Columns,
            _ => Kind::Plain,
        }
    }

    // The kind whose mark has this back. One test for each: behind it the compiler knows the kind, and with it the rule.
    pub fn with_mark(back: usize) -> Option<Kind>
        ensures { MarkTells back result }
    {
        match back {
            PLAIN => Some(Kind::Plain),
            FOLDED => Some(Kind::Folded),
            COLUMNS => Some(Kind::Columns),
            _ => None,
        }
    }

    // The rule by which its names have their symbols.
    pub fn rule(self) -> Rule
        ensures { result ≡ by_kind (kind_by self) }
    {
        match self {
            Kind::Plain => Rule::Plain,
            Kind::Folded => Rule::Folded,
            Kind::Columns => Rule::Plain,
        }
    }

    // The form of its node table.
    pub fn form(self) -> Form
        ensures { form_by result ≡ form_of (kind_by self) }
    {
        match self {
            Kind::Plain => Form::Rows,
            Kind::Folded => Form::Rows,
            Kind::Columns => Form::Columns,
        }
    }

    // The back of its mark.
    pub fn mark_back(self) -> usize
        ensures { result ≡ mark_back (kind_by self) }
    {
        match self {
            Kind::Plain => PLAIN,
            Kind::Folded => FOLDED,
            Kind::Columns => COLUMNS,
        }
    }

    // Whether it is a full book: with a node table in rows.
    pub fn is_full(self) -> bool
        ensures { result ≡ is_full (kind_by self) }
    {
        self.form() == Form::Rows
    }
}

impl Form {
    // How many bytes a record of the table has: a node's at the most.
    pub fn record_size(self) -> usize
        ensures { (result ≡ record_size (form_by self)) × (result ≤ node_size) }
    {
        match self {
            Form::Rows => fields::SIZE,
            Form::Columns => fields::SIZE,
        }
    }
}
