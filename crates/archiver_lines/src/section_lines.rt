//! Lines of sections.

ghost use Rattle.std.specs.Prelude.{◌≡◌, ℕ, List as Seq, ◌++◌, ◌∷◌, ◌&&◌, [], ◌≤◌, ◌<◌, ◌+◌, nat_lt, length, OnOk, IfOk, IfErr, MatchOption, map, codes, true, false, Err};
ghost use Rattle.std.specs.Str.{bytes_eq};
ghost use Rattle.site_text.specs.Fields.{Gives, Fails};
ghost use Rattle.site_text.specs.FormSteps.{read_form};
ghost use Rattle.archiver_lines.specs.SectionRules.{expr_of, is_of_pool, exprs_at, pool_exprs, is_pool, items_count, exprs_count, pool_form};
ghost use Rattle.archiver_lines.specs.SectionSteps.{items_of, params_line, vsns_line};

use crate::names::{SetNames, copy_name};
use crate::param_options::read_param_options;
use crate::reading::{ParamsLine, PoolLine, VsnExpr, VsnsLine};
use base::{Bytes, List};
use site_text::{ConfFault, Fields, LineError, is_media, refuse_if};
use std::alloc::{AllocError, Global};

/// The limit on the number of expressions for volumes, with pools put in.
const MOST_EXPRS: usize = 256;

/// `NAME` and options, behind these lines of params.
#[tactic(auto, unfolding(crate::specs::SectionSteps::params_line))]
pub fn params_line(
    alloc: Global,
    names: &SetNames,
    lines: &[ParamsLine],
    field: &[u8],
    fields: &[Bytes],
) -> Result<ParamsLine, LineError>
    ensures { Gives (λ line. line) result (params_line names.now.site.now names.now.file_systems.now names.now.sets.now lines.now field.now fields.now) }
{
    let name = copy_name(alloc, names, field)?;
    let mut given = List::new(alloc);
    read_param_options(alloc, lines, &name, &mut given, Fields::new(fields))?;
    Ok(ParamsLine { name, given })
}

/// Copies of a field and of those behind it.
fn texts_of(alloc: Global, first: &[u8], fields: Fields) -> Result<List<Bytes>, AllocError>
    ensures { IfOk result (λ texts. texts ≡ first.now ∷ fields.entry) }
{
    let mut texts = List::new(alloc);
    texts.push(Bytes::from_slice(alloc, first)?)?;
    let mut fields = fields;
    while let Some(text) = fields.take() {
        texts.push(Bytes::from_slice(alloc, text)?)?;
    }
    Ok(texts)
}

/// `POOL MEDIA EXPR..`, at the line of this number.
pub fn pool_line(alloc: Global, number: u32, fields: &[Bytes]) -> Result<PoolLine, LineError>
    ensures { Gives (λ line. line) result (read_form (pool_form number) fields.now) }
{
    let mut fields = Fields::new(fields);
    let pool = fields.next()?;
    let media = fields.next()?;
    if !is_media(media) {
        return Err(LineError::Fault(ConfFault::BadValue));
    }
    let first = fields.next()?;
    let texts = texts_of(alloc, first, fields)?;
    let pool = Bytes::from_slice(alloc, pool)?;
    let media = Bytes::from_slice(alloc, media)?;
    Ok(PoolLine {
        pool,
        media,
        texts,
        line: number,
    })
}

fn expr_of(alloc: Global, media: &[u8], text: &[u8], line: u32) -> Result<VsnExpr, AllocError>
    ensures { IfOk result (λ expr. expr ≡ expr_of media.now line text.now) }
{
    let media = Bytes::from_slice(alloc, media)?;
    let text = Bytes::from_slice(alloc, text)?;
    Ok(VsnExpr { media, text, line })
}

/// The line is of this pool and media type.
fn is_of_pool(pool: &[u8], media: &[u8], line: &PoolLine) -> bool
    ensures { result ≡ is_of_pool pool.now media.now line.now }
{
    line.pool.as_slice() == pool && line.media.as_slice() == media
}

fn put_line(alloc: Global, found: &mut List<VsnExpr>, line: &PoolLine) -> Result<(), AllocError>
    ensures { OnOk result (found.new ≡ found.old ++ map (expr_of line.now.media line.now.line) line.now.texts) }
{
    for text in line.texts.as_slice() {
        found.push(expr_of(alloc, line.media.as_slice(), text.as_slice(), line.line)?)?;
    }
    Ok(())
}

fn put_pool(
    alloc: Global,
    found: &mut List<VsnExpr>,
    pools: &[PoolLine],
    pool: &[u8],
    media: &[u8],
) -> Result<(), AllocError>
    ensures { OnOk result (found.new ≡ found.old ++ pool_exprs pools.now media.now pool.now) }
{
    for line in pools {
        if is_of_pool(pool, media, line) {
            put_line(alloc, found, line)?;
        }
    }
    Ok(())
}

/// There is a pool of this name.
fn is_pool(pools: &[PoolLine], name: &[u8]) -> bool
    ensures { result ≡ is_pool pools.now name.now }
{
    pools.iter().any(|p| p.pool.as_slice() == name)
}

/// What the items of a vsns line stand on.
#[derive(Clone, Copy)]
struct Items<'a> {
    pools: &'a [PoolLine],
    media: &'a [u8],
    /// The number of the line.
    line: u32,
}

/// The pool that an item names, whose name is taken, or none where the item is an expression.
#[tactic(auto, using(crate::proofs::Items::pool_missing, crate::proofs::Items::pool_unknown))]
fn pool_of_item<'a>(
    pools: &[PoolLine],
    first: &[u8],
    fields: &mut Fields<'a>,
) -> Result<Option<&'a [u8]>, ConfFault>
    ensures named { IfOk result (λ named. MatchOption named
        ((bytes_eq first.now (codes "-pool") ≡ false) × (fields.new ≡ fields.old))
        (λ pool. (bytes_eq first.now (codes "-pool") ≡ true) × (fields.old ≡ pool.now ∷ fields.new) × (is_pool pools.now pool.now ≡ true))) }
    ensures shorter { length fields.new ≤ length fields.old }
    ensures wrong { IfErr result (λ fault. (media : Seq ℕ) → (line : ℕ) → (found : Seq VsnExpr) → items_of pools.now media line found (first.now ∷ fields.old) ≡ Err fault) }
{
    if first != b"-pool".as_slice() {
        return Ok(None);
    }
    let Some(pool) = fields.take() else {
        return Err(ConfFault::MissingField);
    };
    if !is_pool(pools, pool) {
        return Err(ConfFault::UnknownPool);
    }
    Ok(Some(pool))
}

/// Puts the expressions of the first item at the end.
#[tactic(auto, using(crate::proofs::Items::item_alone, crate::proofs::Items::item_pool))]
fn add_item(
    alloc: Global,
    items: &Items,
    found: &mut List<VsnExpr>,
    first: &[u8],
    fields: &mut Fields,
) -> Result<(), LineError>
    ensures read { OnOk result (items_of items.now.pools.now items.now.media.now items.now.line found.old (first.now ∷ fields.old)
        ≡ items_of items.now.pools.now items.now.media.now items.now.line found.new fields.new) }
    ensures shorter { length fields.new ≤ length fields.old }
    ensures wrong { IfErr result (λ error. Fails error (items_of items.now.pools.now items.now.media.now items.now.line found.old (first.now ∷ fields.old))) }
{
    match pool_of_item(items.pools, first, fields)? {
        Some(pool) => put_pool(alloc, found, items.pools, pool, items.media)?,
        None => found.push(expr_of(alloc, items.media, first, items.line)?)?,
    }
    Ok(())
}

/// The expressions of all items.
#[tactic(auto, using(crate::proofs::Items::all_read))]
fn vsn_items(alloc: Global, items: &Items, fields: Fields) -> Result<List<VsnExpr>, LineError>
    ensures { Gives (λ exprs. exprs) result (items_of items.now.pools.now items.now.media.now items.now.line [] fields.entry) }
{
    let mut found = List::new(alloc);
    let mut fields = fields;
    while let Some(first) = fields.take() {
        add_item(alloc, items, &mut found, first, &mut fields)?;
    }
    Ok(found)
}

/// The room that is left behind the expressions of a pool with a media type, if there is room for them.
#[tactic(auto, using(crate::proofs::Items::pool_reached))]
fn room_behind_pool(pools: &[PoolLine], pool: &[u8], media: &[u8], room: usize) -> Option<usize>
    ensures { MatchOption result (room < length (pool_exprs pools.now media.now pool.now)) (λ left. left + length (pool_exprs pools.now media.now pool.now) ≡ room) }
{
    let mut left = room;
    for line in pools {
        if is_of_pool(pool, media, line) {
            left = left.checked_sub(line.texts.len())?;
        }
    }
    Some(left)
}

/// The room that is left behind what the first item says, if there is room for it.
#[tactic(auto, using(crate::proofs::Items::alone_counted, crate::proofs::Items::pool_counted, crate::proofs::Items::missing_counted))]
fn room_behind_item(
    pools: &[PoolLine],
    media: &[u8],
    room: usize,
    first: &[u8],
    fields: &mut Fields,
) -> Option<usize>
    ensures counted { MatchOption result
        (room < items_count pools.now media.now (first.now ∷ fields.old))
        (λ left. left + items_count pools.now media.now (first.now ∷ fields.old) ≡ room + items_count pools.now media.now fields.new) }
    ensures shorter { length fields.new ≤ length fields.old }
{
    if first != b"-pool".as_slice() {
        return room.checked_sub(1);
    }
    match fields.take() {
        Some(pool) => room_behind_pool(pools, pool, media, room),
        None => Some(room),
    }
}

/// The fields behind the name of a vsns line say more expressions than there is room for. It counts no further than the room, and
/// copies nothing: each item may name a large pool.
#[tactic(auto, unfolding(crate::specs::SectionRules::exprs_count, crate::specs::SectionRules::items_count))]
fn are_over(pools: &[PoolLine], room: usize, fields: &[Bytes]) -> bool
    ensures { result ≡ nat_lt room (exprs_count pools.now fields.now) }
{
    let mut fields = Fields::new(fields);
    let Some(media) = fields.take() else {
        return false;
    };
    let mut left = room;
    while let Some(first) = fields.take() {
        match room_behind_item(pools, media, left, first, &mut fields) {
            Some(behind) => left = behind,
            None => return true,
        }
    }
    false
}

/// The fields behind the name of a vsns line say more expressions than may stand behind so many of the lines before it.
fn are_too_many(pools: &[PoolLine], before: usize, fields: &[Bytes]) -> bool
    ensures { result ≡ nat_lt 256 (before + exprs_count pools.now fields.now) }
{
    match MOST_EXPRS.checked_sub(before) {
        Some(room) => are_over(pools, room, fields),
        None => true,
    }
}

/// `NAME MEDIA` and items, behind these lines of vsnpools and lines of vsns with so many expressions.
#[tactic(auto, unfolding(crate::specs::SectionSteps::vsns_line, site_text::specs::Fields::next_field))]
pub fn vsns_line(
    alloc: Global,
    names: &SetNames,
    pools: &[PoolLine],
    before: usize,
    number: u32,
    field: &[u8],
    fields: &[Bytes],
) -> Result<VsnsLine, LineError>
    ensures { Gives (λ line. line) result (vsns_line names.now.site.now names.now.file_systems.now names.now.sets.now pools.now before number field.now fields.now) }
{
    let name = copy_name(alloc, names, field)?;
    refuse_if(are_too_many(pools, before, fields), ConfFault::TooMany)?;
    let [media, rest @ ..] = fields else {
        return Err(LineError::Fault(ConfFault::MissingField));
    };
    let media = media.as_slice();
    refuse_if(!is_media(media), ConfFault::BadValue)?;
    refuse_if(rest.is_empty(), ConfFault::MissingField)?;
    let items = Items {
        pools,
        media,
        line: number,
    };
    let exprs = vsn_items(alloc, &items, Fields::new(rest))?;
    Ok(VsnsLine { name, exprs })
}
