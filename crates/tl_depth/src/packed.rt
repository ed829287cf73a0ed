// Lists of actions that take little memory.
ghost use Rattle.std.specs.Prelude.{◌≡◌, ◌<◌, ◌+◌, ◌^◌, ◌↔◌, length, slice_get, Some, IfOk, IfSome, OnOk, IsTrue};
ghost use Rattle.tl_depth.specs.Packed.{value_of, IsCodeOf, Lengthens, AddsCodes, PacksOneMore};

use std::alloc::Global;
use std::marker::Model;
use tl_syntax::{Action, Actions, NoMemory, Value, Values};

/// The codes below this one are symbols' numbers.
const SYMBOLS: u32 = 0x8000_0000;

/// Among how many other values one is looked for.
const LOOKED_AT: usize = 32;

/// An action: its operator, and where the codes of its arguments stand.
#[derive(Clone, Copy)]
pub struct Head {
    /// The operator's position.
    pub op: u32,
    /// The place of the first code.
    pub from: u32,
    /// How many codes there are.
    pub count: u32,
}

/// A list of actions, which contracts see as such. An action takes 12 bytes and 4 for each argument:
/// a code of 32 bits, which is a symbol's number, or the place among others of an integer or a symbol
/// of a large number.
#[derive(Drop)]
pub struct PackedActions {
    heads: Vec<Head>,
    codes: Vec<u32>,
    others: Vec<Value>,
}

impl Model for PackedActions {
    ghost use Rattle.std.specs.Prelude.{List, map};
    ghost use Rattle.tl_syntax.specs.declared.action.Action.{Action as PlainAction};
    ghost use Rattle.tl_depth.specs.Packed.{action_of, ArePacked};

    ghost Value = { List PlainAction };

    ghost view = { λ p. map (action_of p.codes.items p.others.items) p.heads.items };

    ghost invariant = { λ p. ArePacked p.codes.items p.others.items p.heads.items };
}

/// Whether the two are the same value. It takes no memory.
fn is_same(left: Value, right: Value) -> bool
    ensures { IsTrue result ↔ (left ≡ right) }
{
    left == right
}

/// The place of the value among the first of the others. It takes no memory.
fn place_of(others: &[Value], value: Value) -> Option<usize>
    ensures { IfSome result (λ k. slice_get others.now k ≡ Some value) }
{
    let mut k = 0;
    while k < others.len() && k < LOOKED_AT {
        if is_same(others[k], value) {
            return Some(k);
        }
        k += 1;
    }
    None
}

/// The code of a value that stands at this place among the others, where it has 32 bits.
fn code_at(place: usize) -> Result<u32, NoMemory>
    ensures { IfOk result (λ c. c ≡ 2 ^ 31 + place) }
{
    if place >= SYMBOLS as usize {
        return Err(NoMemory);
    }
    Ok(SYMBOLS + place as u32)
}

/// The code of the value, which is put among the others where it is to stand there and is not
/// found.
fn code_of(value: Value, others: &mut Vec<Value>) -> Result<u32, NoMemory>
    ensures others { OnOk result (Lengthens others.old.items others.new.items) }
    ensures code { IfOk result (IsCodeOf others.new.items value) }
{
    if let Value::Sym(n) = value {
        if n < SYMBOLS {
            return Ok(n);
        }
    }
    if let Some(place) = place_of(others.as_slice(), value) {
        return code_at(place);
    }
    let place = others.len();
    others.push(value)?;
    code_at(place)
}

/// The value of the code. It takes no memory.
fn value_of(others: &[Value], code: u32) -> Value
    ensures { result ≡ value_of others.now code }
{
    if code < SYMBOLS {
        return Value::Sym(code);
    }
    match others.get((code - SYMBOLS) as usize) {
        Some(value) => *value,
        None => Value::Sym(code),
    }
}

/// Adds the codes of the values.
fn add_codes(
    values: &[Value],
    codes: &mut Vec<u32>,
    others: &mut Vec<Value>,
) -> Result<(), NoMemory>
    ensures { OnOk result (AddsCodes codes.old.items others.old.items values.now
        codes.new.items others.new.items) }
{
    for value in values {
        let code = code_of(*value, others)?;
        codes.push(code)?;
    }
    Ok(())
}

/// Adds the codes of the action's arguments, and says where they stand.
fn head_of(action: &Action, codes: &mut Vec<u32>, others: &mut Vec<Value>) -> Result<Head, NoMemory>
    ensures { IfOk result (λ head. PacksOneMore codes.old.items others.old.items head action.now
        codes.new.items others.new.items) }
{
    let from = codes.len();
    let count = action.args.len();
    if from > u32::MAX as usize || count > u32::MAX as usize {
        return Err(NoMemory);
    }
    add_codes(action.args.as_slice(), codes, others)?;
    Ok(Head {
        op: action.op,
        from: from as u32,
        count: count as u32,
    })
}

/// How many arguments the actions have together.
fn count_args(actions: &[Action]) -> usize {
    let mut count = 0usize;
    for action in actions {
        count = count.saturating_add(action.args.len());
    }
    count
}

impl PackedActions {
    /// The same list. It fails for want of memory alone, which is so for arguments of 2^32 codes
    /// too.
    pub fn of(alloc: Global, actions: &Actions) -> Result<PackedActions, NoMemory>
        ensures { IfOk result (λ packed. packed ≡ actions.now) }
    {
        let mut heads = Vec::with_capacity(alloc, actions.len())?;
        let mut codes = Vec::with_capacity(alloc, count_args(actions.as_slice()))?;
        let mut others = Vec::new(alloc);
        for action in actions.as_slice() {
            let head = head_of(action, &mut codes, &mut others)?;
            heads.push(head)?;
        }
        Ok(PackedActions {
            heads,
            codes,
            others,
        })
    }

    /// How many actions there are. It takes no memory.
    pub fn len(&self) -> usize
        ensures { result ≡ length self.now }
    {
        self.heads.len()
    }

    /// The action at a place. It fails for want of memory alone.
    pub fn get(&self, alloc: Global, at: usize) -> Result<Action, NoMemory>
        requires { at < length self.now }
        ensures { IfOk result (λ action. slice_get self.now at ≡ Some action) }
    {
        let head = self.heads[at];
        let from = head.from as usize;
        let codes = &self.codes.as_slice()[from..from + head.count as usize];
        let mut args = Values::new(alloc);
        for code in codes {
            args.push(value_of(self.others.as_slice(), *code))?;
        }
        Ok(Action { op: head.op, args })
    }
}
