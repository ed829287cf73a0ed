// The text of a proof, and the line of a verdict.
ghost use Rattle.std.specs.Prelude.{◌≡◌, ◌++◌, codes, IfOk, OnOk};
ghost use Rattle.std.specs.Fmt.{decimal};
ghost use Rattle.std.specs.String.{string_bytes};
ghost use Rattle.tl_line.specs.NamedActions.{ActionIsNamed};
ghost use Rattle.tl_line.specs.Puts.{Puts};
ghost use Rattle.tl_line.specs.WritableActions.{ArgumentsFit};
ghost use Rattle.tl_cert.specs.ProofTexts.{HasNamedAction, LinksAreNamed, LinksFit, head_line, link_line, proof_verdict_text, open_line, proof_text, proved_line};

use crate::proof::{Link, Proof};
use crate::verdict::NoneVerdict;
use std::alloc::{AllocError, Global};
use tl_line::{bytes_of, put_action};
use tl_syntax::{Action, Bytes, NoMemory, Problem};

/// The line of the head of a proof.
fn head_line(alloc: Global, bound: Option<u32>) -> Result<String, AllocError>
    ensures { IfOk result (λ line. string_bytes line ≡ head_line bound) }
{
    match bound {
        None => format!(in alloc; "(none)\n"),
        Some(bound) => format!(in alloc; "(none-within {bound})\n"),
    }
}

/// What stands before the action of a link.
fn link_front(alloc: Global, from: u32) -> Result<String, AllocError>
    ensures { IfOk result
        (λ text. string_bytes text ≡ codes "(pair " ++ (decimal from ++ codes " ")) }
{
    format!(in alloc; "(pair {from} ")
}

/// Puts the line of a link at the end.
#[tactic(auto, using(crate::proofs::Rulesets::growth))]
fn put_link(alloc: Global, problem: &Problem, link: &Link, out: &mut Bytes) -> Result<(), NoMemory>
    requires { ActionIsNamed problem.now.names problem.now.domain.operators link.now.action }
    ensures text { Puts result out.old out.new
        (link_line problem.now.names problem.now.domain.operators link.now) }
    ensures fits { OnOk result (ArgumentsFit link.now.action) }
{
    let front = link_front(alloc, link.from)?;
    out.extend(front.as_bytes())?;
    put_action(problem, &link.action, out)?;
    out.extend(b")\n")?;
    Ok(())
}

/// The lines of a proof, as a proof file writes them: the head, and a line for each link. It fails
/// for want of memory alone.
/// The actions of the links have to be those of the problem, with its names.
pub fn proof_text(alloc: Global, problem: &Problem, proof: &Proof) -> Result<Bytes, NoMemory>
    requires { LinksAreNamed problem.now.names problem.now.domain.operators proof.now.links }
    ensures text { IfOk result
        (λ text. text ≡ proof_text problem.now.names problem.now.domain.operators proof.now) }
    ensures fits { OnOk result (LinksFit proof.now.links) }
{
    let head = head_line(alloc, proof.bound)?;
    let mut text = Bytes::new(alloc);
    text.extend(head.as_bytes())?;
    for link in proof.links.as_slice() {
        put_link(alloc, problem, link, &mut text)?;
    }
    Ok(text)
}

/// The line that says that there is no plan, or none of at most so many actions.
fn proved_line(alloc: Global, bound: Option<u32>) -> Result<Bytes, NoMemory>
    ensures { IfOk result (λ line. line ≡ proved_line bound) }
{
    match bound {
        None => bytes_of(alloc, "; proved none\n"),
        Some(bound) => {
            let line = format!(in alloc; "; proved none within {bound}\n")?;
            bytes_of(alloc, line.as_str())
        }
    }
}

/// The line that says that the link of this number is not good.
fn bad_link_line(alloc: Global, number: u32) -> Result<Bytes, NoMemory>
    ensures { IfOk result
        (λ line. line ≡ codes "; bad link " ++ (decimal number ++ codes "\n")) }
{
    let line = format!(in alloc; "; bad link {number}\n")?;
    bytes_of(alloc, line.as_str())
}

/// The line that says that the node of this number is accepted.
fn accepts_line(alloc: Global, number: u32) -> Result<Bytes, NoMemory>
    ensures { IfOk result (λ line. line ≡ codes "; accepts " ++ (decimal number ++ codes "\n")) }
{
    let line = format!(in alloc; "; accepts {number}\n")?;
    bytes_of(alloc, line.as_str())
}

/// What stands before the action that leads out at the node of this number.
fn open_front(alloc: Global, number: u32) -> Result<String, AllocError>
    ensures { IfOk result
        (λ text. string_bytes text ≡ codes "; open " ++ (decimal number ++ codes " ")) }
{
    format!(in alloc; "; open {number} ")
}

/// The line that says that the action leads out at the node of this number.
fn open_line(alloc: Global, problem: &Problem, number: u32, a: &Action) -> Result<Bytes, NoMemory>
    requires { ActionIsNamed problem.now.names problem.now.domain.operators a.now }
    ensures { IfOk result
        (λ line. line ≡ open_line problem.now.names problem.now.domain.operators number a.now) }
{
    let front = open_front(alloc, number)?;
    let mut line = bytes_of(alloc, front.as_str())?;
    put_action(problem, a, &mut line)?;
    line.extend(b"\n")?;
    Ok(line)
}

/// The line of the verdict on a proof: whether there is no plan, or else the number of the link
/// that is not good, counted from 1, or that of the node that is accepted or open. The action of
/// the verdict is one of the problem. It fails for want of memory alone.
pub fn none_text(
    alloc: Global,
    problem: &Problem,
    proof: &Proof,
    verdict: &NoneVerdict,
) -> Result<Bytes, NoMemory>
    requires { HasNamedAction problem.now.names problem.now.domain.operators verdict.now }
    ensures { IfOk result
        (λ text. text ≡ proof_verdict_text problem.now.names problem.now.domain.operators
        proof.now.bound verdict.now) }
{
    match verdict {
        NoneVerdict::Proved => proved_line(alloc, proof.bound),
        NoneVerdict::BadLink(number) => bad_link_line(alloc, *number),
        NoneVerdict::Accepts(number) => accepts_line(alloc, *number),
        NoneVerdict::Open(number, action) => open_line(alloc, problem, *number, action),
    }
}
