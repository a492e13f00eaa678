// Symbols and the comparison of names: the symbol of a byte, the symbol of a name at a depth, what two names share, which one is above.
// By which rule a byte has its symbol is taken along, and what it says is known here and nowhere below. Equal bytes have equal symbols
// under every rule, so symbols are looked at only where bytes differ; under the plain rule bytes that differ have different symbols, in
// the same order.
#![tactic(auto)]

ghost use Rattle.std.specs.Prelude.{◌≡◌, ◌-◌, ◌<◌, ◌≤◌, eqb, ltb};
ghost use Rattle.words.specs.Words.{at, less, shared, word};
ghost use Rattle.format.specs.Folded.{capital};
ghost use Rattle.symbols.specs.declared.Rule.{Rule as ByRule};
ghost use Rattle.symbols.specs.declared.Rule.TheVariants.{Folded, Plain};
ghost use Rattle.symbols.specs.Rules.{rule_by};
ghost use Rattle.symbols.specs.Parting.{Parted};

// The rule that gives a byte its symbol.
#[derive(Clone, Copy)]
pub enum Rule {
    // One more than the byte.
    Plain,
    // The same, but a capital letter, 65 to 90, has the symbol of the small one, 32 higher.
    Folded,
}

// A rule that is known where the code is compiled. What is generic over it is compiled for each rule by itself, with no test of the rule left.
pub trait KnownRule {
    ghost rule: { ByRule };

    fn rule() -> Rule
        ensures { result ≡ rule };
}

// The plain rule, as a type.
pub struct PlainRule;

impl KnownRule for PlainRule {
    ghost rule = { Plain };

    fn rule() -> Rule {
        Rule::Plain
    }
}

// The folded rule, as a type.
pub struct FoldedRule;

impl KnownRule for FoldedRule {
    ghost rule = { Folded };

    fn rule() -> Rule {
        Rule::Folded
    }
}

// Whether a byte is a capital letter, 65 to 90. All other bytes have the same symbol by every rule.
pub fn is_capital(x: u8) -> bool
    ensures { result ≡ capital x }
{
    matches!(x, b'A'..=b'Z')
}

// The symbol of a byte.
pub fn symbol(rule: Rule, x: u8) -> usize
    ensures { (result ≡ rule_by rule x) × (result < 257) }
{
    let own = usize::from(x) + 1;
    match rule {
        Rule::Plain => own,
        Rule::Folded => {
            if is_capital(x) {
                return own + 32;
            }
            own
        }
    }
}

// Whether a byte has that symbol.
pub fn has_symbol(rule: Rule, x: u8, s: usize) -> bool
    ensures { result ≡ eqb s (rule_by rule x) }
{
    match rule {
        Rule::Plain => s == usize::from(x) + 1,
        Rule::Folded => s == symbol(Rule::Folded, x),
    }
}

// Whether two bytes, of which x is the lesser, have the same symbol by the folded rule: a capital letter and its small one.
fn is_pair(x: u8, y: u8) -> bool
    requires { x < y }
    ensures { result ≡ eqb (rule_by Rule.Folded x) (rule_by Rule.Folded y) }
{
    is_capital(x) && x + 32 == y
}

// Whether two bytes have the same symbol.
pub fn is_alike(rule: Rule, x: u8, y: u8) -> bool
    ensures { result ≡ eqb (rule_by rule x) (rule_by rule y) }
{
    if x == y {
        return true;
    }
    match rule {
        Rule::Plain => false,
        Rule::Folded => {
            if x < y {
                return is_pair(x, y);
            }
            is_pair(y, x)
        }
    }
}

// Whether the symbol of y is above that of x.
pub fn is_higher(rule: Rule, x: u8, y: u8) -> bool
    ensures { result ≡ ltb (rule_by rule x) (rule_by rule y) }
{
    match rule {
        Rule::Plain => x < y,
        Rule::Folded => symbol(Rule::Folded, x) < symbol(Rule::Folded, y),
    }
}

// Symbol number d of a name of which the bytes from number `skip` on are lent. Past its last byte stands the end symbol.
pub fn symbol_at(rule: Rule, rest: &[u8], skip: usize, d: usize) -> usize
    requires { skip ≤ d }
    ensures { result ≡ at (word (rule_by rule) rest.now) (d - skip) }
{
    let Some(x) = rest.get(d - skip) else {
        return 0;
    };
    symbol(rule, *x)
}

// How many leading symbols two names share.
pub fn shared_symbols(rule: Rule, a: &[u8], b: &[u8]) -> usize
    ensures { result ≡ shared (word (rule_by rule) a.now) (word (rule_by rule) b.now) }
{
    let most = a.len().min(b.len());
    for i in 0..most {
        if !is_alike(rule, a[i], b[i]) {
            return i;
        }
    }
    most
}

// The same of two names whose first bytes differ, where both have one: by the plain rule they share none.
pub fn shared_on(rule: Rule, a: &[u8], b: &[u8]) -> usize
    requires { Parted a.now b.now }
    ensures { result ≡ shared (word (rule_by rule) a.now) (word (rule_by rule) b.now) }
{
    match rule {
        Rule::Plain => 0,
        Rule::Folded => shared_symbols(Rule::Folded, a, b),
    }
}

// Whether a name is above prev, with which it shares that many symbols.
pub fn is_above(rule: Rule, prev: &[u8], name: &[u8], shares: usize) -> bool
    requires { shares ≡ shared (word (rule_by rule) prev.now) (word (rule_by rule) name.now) }
    ensures { result ≡ less (word (rule_by rule) prev.now) (word (rule_by rule) name.now) }
{
    if name.len() <= shares {
        return false;
    }
    if prev.len() <= shares {
        return true;
    }
    is_higher(rule, prev[shares], name[shares])
}

// Whether a name is above prev.
pub fn is_less(rule: Rule, prev: &[u8], name: &[u8]) -> bool
    ensures { result ≡ less (word (rule_by rule) prev.now) (word (rule_by rule) name.now) }
{
    let shares = shared_symbols(rule, prev, name);
    is_above(rule, prev, name, shares)
}
