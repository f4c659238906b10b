ghost use Rattle.std.specs.Prelude.{◌≡◌, ◌+◌, ◌<◌, ◌≤◌, ◌↔◌, [], ◌++◌, length, replicate, option_map, IsErr, OnOk, OnErr, IfErr};
ghost use Rattle.object_lists.specs.DolEntries.{total_of};
ghost use Rattle.object_lists.specs.DolSeen.{seen_dol_entry, all_seen};
ghost use Rattle.object_lists.specs.Filled.{dol_data, entry_data, fitted, known};
ghost use Rattle.object_lists.specs.CardObjects.{entries_given};
ghost use Rattle.object_lists.specs.Filled as spec;

use crate::dol::{Dol, Entry, total};
use arrayvec::ArrayVec;
use ber_tlv::{Full, Tag, append, is_constructed};
use emv_dict::{Format, Origin, tag_row};
use env_map::Env;

/// The most bytes that filled data has.
const MOST: usize = 252;

/// Fills an object list (EMV 4.3 Book 3 section 5.4): for each entry the value of its object, cut or
/// filled to the entry's length, from `card` where the dictionary says that the object comes from the
/// card, else from `terminal`; zeros where that gives none. The data replace what `out` held, and are
/// as many bytes as the entries want. `Full` comes exactly where these are more than 252, and `out` is
/// empty then.
pub fn fill(dol: &Dol, card: &Env, terminal: &Env, out: &mut ArrayVec<u8, 252>) -> Result<(), Full>
    ensures ok { OnOk result (out.new.items ≡ dol_data dol.now card.now terminal.now) }
    ensures len { OnOk result (length out.new.items ≡ total_of dol.now) }
    ensures full { IsErr result ↔ (252 < total_of dol.now) }
    ensures needed { IfErr result (λ full. full.needed ≡ total_of dol.now) }
    ensures free { IfErr result (λ full. full.free ≡ 252) }
    ensures err { OnErr result (out.new.items ≡ []) }
{
    fill_from(dol, Some(card), terminal, out)
}

/// The same before the card gave any object.
pub fn fill_without_card(dol: &Dol, terminal: &Env, out: &mut ArrayVec<u8, 252>) -> Result<(), Full>
    ensures ok { OnOk result (out.new.items ≡ dol_data dol.now [] terminal.now) }
    ensures len { OnOk result (length out.new.items ≡ total_of dol.now) }
    ensures full { IsErr result ↔ (252 < total_of dol.now) }
    ensures needed { IfErr result (λ full. full.needed ≡ total_of dol.now) }
    ensures free { IfErr result (λ full. full.free ≡ 252) }
    ensures err { OnErr result (out.new.items ≡ []) }
{
    fill_from(dol, None, terminal, out)
}

fn fill_from(
    dol: &Dol,
    card: Option<&Env>,
    terminal: &Env,
    out: &mut ArrayVec<u8, 252>,
) -> Result<(), Full>
    ensures ok { OnOk result (out.new.items ≡ dol_data dol.now (entries_given (option_map (λ env. env.now) card.entry)) terminal.now) }
    ensures len { OnOk result (length out.new.items ≡ total_of dol.now) }
    ensures full { IsErr result ↔ (252 < total_of dol.now) }
    ensures needed { IfErr result (λ full. full.needed ≡ total_of dol.now) }
    ensures free { IfErr result (λ full. full.free ≡ 252) }
    ensures err { OnErr result (out.new.items ≡ []) }
{
    out.clear();
    let needed = total(dol) as usize;
    if needed > MOST {
        return Err(Full { needed, free: MOST });
    }
    append_all(out, dol.entries(), card, terminal);
    Ok(())
}

fn append_all(out: &mut ArrayVec<u8, 252>, entries: &[Entry], card: Option<&Env>, terminal: &Env)
    requires { length out.old.items + total_of (all_seen entries.now) ≤ 252 }
    ensures filled { out.new.items ≡ out.old.items ++ dol_data (all_seen entries.now) (entries_given (option_map (λ env. env.now) card.entry)) terminal.now }
    ensures len { length out.new.items ≡ length out.old.items + total_of (all_seen entries.now) }
{
    for entry in entries {
        append_entry(out, entry, card, terminal);
    }
}

fn append_entry(out: &mut ArrayVec<u8, 252>, entry: &Entry, card: Option<&Env>, terminal: &Env)
    requires { length out.old.items + entry.now.count ≤ 252 }
    ensures filled { out.new.items ≡ out.old.items ++ entry_data (entries_given (option_map (λ env. env.now) card.entry)) terminal.now (seen_dol_entry entry.now) }
    ensures len { length out.new.items ≡ length out.old.items + entry.now.count }
{
    let count = usize::from(entry.count);
    match known_value(entry.tag, card, terminal) {
        Some((format, value)) => append_fitted(out, format, count, value),
        None => append_filler(out, 0, count),
    }
}

/// The format and the value of an object that the dictionary has and that is not constructed.
#[tactic(auto, unfolding(crate::specs::Filled::known))]
fn known_value<'a>(tag: Tag, card: Option<&'a Env>, terminal: &'a Env) -> Option<(Format, &'a [u8])>
    ensures { option_map (λ found. (found.0, found.1.now)) result ≡ known (entries_given (option_map (λ env. env.now) card.entry)) terminal.now tag.0 }
{
    if is_constructed(tag) {
        return None;
    }
    let row = tag_row(tag)?;
    let value = match row.origin {
        Origin::Card => card?.get(tag)?,
        Origin::Terminal | Origin::Issuer => terminal.get(tag)?,
    };
    Some((row.format, value))
}

fn append_fitted(out: &mut ArrayVec<u8, 252>, format: Format, count: usize, value: &[u8])
    requires { length out.old.items + count ≤ 252 }
    ensures filled { out.new.items ≡ out.old.items ++ fitted format count value.now }
    ensures len { length out.new.items ≡ length out.old.items + count }
{
    if value.len() > count {
        append(out, cut(format, count, value));
        return;
    }
    let missing = count - value.len();
    match format {
        Format::Numeric => {
            append_filler(out, 0, missing);
            append(out, value);
        }
        Format::Compressed => {
            append(out, value);
            append_filler(out, 0xff, missing);
        }
        Format::Text | Format::Binary => {
            append(out, value);
            append_filler(out, 0, missing);
        }
    }
}

/// The rightmost bytes of a numeric value, the leftmost of another.
fn cut(format: Format, count: usize, value: &[u8]) -> &[u8]
    requires { count ≤ length value.now }
    ensures filled { result.now ≡ spec.fitted_cut format count value.now }
    ensures len { length result.now ≡ count }
{
    match format {
        Format::Numeric => &value[value.len() - count..],
        Format::Compressed | Format::Text | Format::Binary => &value[..count],
    }
}

fn append_filler(out: &mut ArrayVec<u8, 252>, byte: u8, count: usize)
    requires { length out.old.items + count ≤ 252 }
    ensures filled { out.new.items ≡ out.old.items ++ replicate count byte }
    ensures len { length out.new.items ≡ length out.old.items + count }
{
    for _ in 0..count {
        out.push(byte);
    }
}
