// Building a book from a list: it is judged; then come the sizes, so that nothing is written before it is known that all of it fits; and then
// the book is put together (crate `assembly`).
#![tactic(auto)]

ghost use Rattle.std.specs.Prelude.{◌≡◌, true};
ghost use Rattle.format.specs.Records.{most_names, read_list};
ghost use Rattle.answers.specs.Calls.{build};
ghost use Rattle.format.specs.Full.{is_full};
ghost use Rattle.format.specs.Kinds.{rule_of};
ghost use Rattle.kinds.specs.Known.{kind_by};
ghost use Rattle.assembly.specs.Plans.{PlanAsk};
ghost use Rattle.shapes.specs.Endings.{wrote};
ghost use Rattle.build.specs.Ends.{built_of};

use assembly::Plan;
use kinds::Kind;
use records::Note;
use refusals::Refusal;

// The book of a judged list, where it is short enough and fits: how many bytes it has. Refusals: 9; 4.
pub fn build_judged(plan: &Plan, room: &mut [u8]) -> Result<usize, Refusal>
    requires { PlanAsk plan.now }
    ensures { wrote result room.new ≡ built_of (kind_by plan.now.kind) plan.now.block room.old (read_list (rule_of (kind_by plan.now.kind)) most_names plan.now.list.now) }
{
    let s = plan.sizes();
    let total = s.total;
    if 65535 < total {
        return Err(Refusal::BookTooLong);
    }
    if room.len() < total {
        return Err(Refusal::RoomTooShort);
    }
    plan.write_book(s, room);
    Ok(total)
}

// The book of a list with blocks of so many names, of a full kind, at the front of the room: how many bytes it has. Refusals: 8; record by
// record 5, 6, 7; 9; 4.
pub fn build_list(kind: Kind, list: &[u8], block: usize, room: &mut [u8]) -> Result<usize, Refusal>
    requires { is_full (kind_by kind) ≡ true }
    ensures { wrote result room.new ≡ build (kind_by kind) list.now block room.old }
{
    if block == 0 || 64 < block {
        return Err(Refusal::BadBlockSize);
    }
    let none = Note {
        len: 0,
        count: 0,
        share: 0,
    };
    let mut notes = [none; 2000];
    let rule = kind.rule();
    let names = records::judge_by(rule, list, 2000, &mut notes)?;
    let plan = Plan {
        kind,
        list,
        names,
        notes: &notes,
        block,
    };
    build_judged(&plan, room)
}
