//! Which options of params hold for a copy of a set.

ghost use Rattle.std.specs.Prelude.{◌≡◌, fold};
ghost use Rattle.archiver_cmd.specs.Params.{with_reserve, AreParams};
ghost use Rattle.archiver_cmd.specs.ParamsSteps.{no_params, with_param, over, params_named};
ghost use Rattle.std.specs.Option.{option_or};
ghost use Rattle.archiver_cmd.specs.Levels.{name_at};

use crate::levels::{Level, is_named};
use archiver_lines::{Given, Join, Owner, ParamsLine, ReservePart, Sort, Unarchage};

/// The parts of a reservation.
#[derive(Clone, Copy, Debug, PartialEq, Eq)]
pub struct Reserve {
    pub set: bool,
    pub owner: Option<Owner>,
    pub fs: bool,
}

/// The options of params that have an effect, each absent or given. Sizes are bytes below 2^50, ages seconds below 2^40.
#[derive(Clone, Copy, Debug, PartialEq, Eq)]
pub struct Params {
    pub archmax: Option<u64>,
    pub fillvsns: bool,
    pub join: Option<Join>,
    pub sort: Option<Sort>,
    pub reserve: Option<Reserve>,
    pub ovflmin: Option<u64>,
    pub startage: Option<u64>,
    /// At least 1.
    pub startcount: Option<u32>,
    pub startsize: Option<u64>,
    pub unarchage: Option<Unarchage>,
    /// Percent, 0 to 100.
    pub recycle_hwm: Option<u32>,
    /// Percent, 0 to 100.
    pub recycle_mingain: Option<u32>,
    pub recycle_vsncount: Option<u32>,
    pub recycle_dataquantity: Option<u64>,
    pub recycle_ignore: bool,
}

/// No option is given.
fn no_params() -> Params
    ensures { result ≡ no_params }
{
    Params {
        archmax: None,
        fillvsns: false,
        join: None,
        sort: None,
        reserve: None,
        ovflmin: None,
        startage: None,
        startcount: None,
        startsize: None,
        unarchage: None,
        recycle_hwm: None,
        recycle_mingain: None,
        recycle_vsncount: None,
        recycle_dataquantity: None,
        recycle_ignore: false,
    }
}

/// A reservation with one more part.
fn with_reserve(reserve: Option<Reserve>, part: ReservePart) -> Reserve
    ensures { result ≡ with_reserve reserve part }
{
    let mut now = match reserve {
        Some(reserve) => reserve,
        None => Reserve {
            set: false,
            owner: None,
            fs: false,
        },
    };
    match part {
        ReservePart::Set => now.set = true,
        ReservePart::Owner(owner) => now.owner = Some(owner),
        ReservePart::Fs => now.fs = true,
    }
    now
}

/// An option is given in place of what was given before; a part of a reservation is added.
fn add_param(params: &mut Params, given: Given)
    ensures { params.new ≡ with_param params.old given }
{
    match given {
        Given::Archmax(size) => params.archmax = Some(size),
        Given::Fillvsns => params.fillvsns = true,
        Given::Join(join) => params.join = Some(join),
        Given::Sort(sort) => params.sort = Some(sort),
        Given::Reserve(part) => params.reserve = Some(with_reserve(params.reserve, part)),
        Given::Ovflmin(size) => params.ovflmin = Some(size),
        Given::Startage(age) => params.startage = Some(age),
        Given::Startcount(count) => params.startcount = Some(count),
        Given::Startsize(size) => params.startsize = Some(size),
        Given::Unarchage(by) => params.unarchage = Some(by),
        Given::RecycleHwm(percent) => params.recycle_hwm = Some(percent),
        Given::RecycleMingain(percent) => params.recycle_mingain = Some(percent),
        Given::RecycleVsncount(count) => params.recycle_vsncount = Some(count),
        Given::RecycleDataquantity(size) => params.recycle_dataquantity = Some(size),
        Given::RecycleIgnore => params.recycle_ignore = true,
        Given::Nothing => {}
    }
}

fn add_params(params: &mut Params, given: &[Given])
    ensures { params.new ≡ fold with_param params.old given.now }
{
    for one in given {
        add_param(params, *one);
    }
}

/// What is given under a name.
#[tactic(auto, using(crate::proofs::ParamsTold::fold_behind))]
fn params_named(lines: &[ParamsLine], level: Level, set: &[u8], copy: u8) -> Params
    ensures { result ≡ params_named lines.now (name_at level set.now copy) }
{
    let mut params = no_params();
    for line in lines {
        if is_named(&line.name, level, set, copy) {
            add_params(&mut params, line.given.as_slice());
        }
    }
    params
}

fn either<T: Copy>(first: Option<T>, other: Option<T>) -> Option<T>
    ensures { result ≡ option_or first other }
{
    match first {
        Some(value) => Some(value),
        None => other,
    }
}

/// Each option as given first, or else as given in the other.
fn over(first: Params, other: Params) -> Params
    ensures { result ≡ over first other }
{
    Params {
        archmax: either(first.archmax, other.archmax),
        fillvsns: first.fillvsns || other.fillvsns,
        join: either(first.join, other.join),
        sort: either(first.sort, other.sort),
        reserve: either(first.reserve, other.reserve),
        ovflmin: either(first.ovflmin, other.ovflmin),
        startage: either(first.startage, other.startage),
        startcount: either(first.startcount, other.startcount),
        startsize: either(first.startsize, other.startsize),
        unarchage: either(first.unarchage, other.unarchage),
        recycle_hwm: either(first.recycle_hwm, other.recycle_hwm),
        recycle_mingain: either(first.recycle_mingain, other.recycle_mingain),
        recycle_vsncount: either(first.recycle_vsncount, other.recycle_vsncount),
        recycle_dataquantity: either(first.recycle_dataquantity, other.recycle_dataquantity),
        recycle_ignore: first.recycle_ignore || other.recycle_ignore,
    }
}

/// The options for a copy of a set: each as its own lines give it, else as those of this copy of all sets, else as those of all
/// sets.
pub fn params_of_copy(lines: &[ParamsLine], set: &[u8], copy: u8) -> Params
    ensures { AreParams lines.now set.now copy result }
{
    let own = params_named(lines, Level::Set, set, copy);
    let by_copy = params_named(lines, Level::Copy, set, copy);
    let by_all = params_named(lines, Level::All, set, copy);
    over(own, over(by_copy, by_all))
}
