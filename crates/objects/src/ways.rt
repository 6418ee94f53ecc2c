// Ways through a chart: chains of parents, where two of them meet, and where initial targets lead.
ghost use Rattle.std.specs.Prelude.{◌≡◌, ◌≤◌, reverse, length, find};
ghost use Rattle.terms.specs.Entries.{entries};
ghost use Rattle.objects.specs.Charts.{chain, on_chain, base_of, below, led_on, reached};

use tables::chart::{State, parent_of};
use terms::table::Table;

// The states of a chain, or some of them.
pub(crate) type Chain = Table<u8, 4>;

// The state itself, its parent and so on up to the top.
#[tactic(auto, using(crate::proofs::Climbs::chain_starts, crate::proofs::Climbs::climbed, crate::proofs::Climbs::taken))]
pub(crate) fn chain(states: &Table<State, 32>, innermost: u8) -> Chain
    ensures { entries result ≡ chain (entries states.now) innermost }
{
    let mut chain = Table::new(0);
    let mut state = innermost;
    while state != 0 && chain.push(state).is_ok() {
        state = parent_of(states, state as usize);
    }
    chain
}

// The lowest state that is on both chains.
fn meeting(one: &[u8], other: &[u8]) -> Option<u8>
    ensures { result ≡ find (λ state. on_chain state other.now) one.now }
{
    one.iter().copied().find(|state| other.contains(state))
}

// The state below which a move leaves and enters, 0 for the top.
pub(crate) fn base_of(states: &Table<State, 32>, from: u8, to: u8) -> u8
    ensures { result ≡ base_of (entries states.now) from to }
{
    if from == to {
        return parent_of(states, from as usize);
    }
    meeting(chain(states, from).as_slice(), chain(states, to).as_slice()).unwrap_or(0)
}

// The states of a chain below the base.
pub(crate) fn below(base: u8, chain: &[u8]) -> &[u8]
    ensures { result.now ≡ below base chain.now }
{
    let end = chain
        .iter()
        .position(|state| *state == base)
        .unwrap_or(chain.len());
    &chain[..end]
}

// The states of a chain, outermost first.
pub(crate) fn outermost_first(chain: &[u8]) -> Chain
    requires { length chain.now ≤ 4 }
    ensures { entries result ≡ reverse chain.now }
{
    let mut reversed = Table::new(0);
    for state in chain.iter().rev().copied() {
        let _ = reversed.push(state);
    }
    reversed
}

// Where the initial targets lead from a state: a chain has room for three.
#[tactic(auto, unfolding(crate::specs::Charts::reached))]
pub(crate) fn reached(states: &Table<State, 32>, target: u8) -> u8
    ensures { result ≡ reached (entries states.now) target }
{
    led_on(states, led_on(states, led_on(states, target)))
}

// The initial target of a state, or the state itself where it has none.
fn led_on(states: &Table<State, 32>, state: u8) -> u8
    ensures { result ≡ led_on (entries states.now) state }
{
    states
        .get(state as usize)
        .and_then(|found| found.initial)
        .unwrap_or(state)
}
