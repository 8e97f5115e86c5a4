// The bytes that tables will take, section by section in file order: what is written must fit before a byte is put.
ghost use Rattle.std.specs.Prelude.{◌≡◌, ◌≤◌, min, length};
ghost use Rattle.written.specs.Put.{put_bytes};
ghost use Rattle.model.specs.Told.{lent_is};
ghost use Rattle.model.specs.Written.{bytes_of};
ghost use Rattle.sizes.specs.Counts.{Counts};
ghost use Rattle.writing.specs.Ready.{Ready};
ghost use Rattle.writing.specs.Halves.{front_of, back_of, table_in};

use grammar::Span;
use model::Lent;
use sizes::{base, callable, chain, constant, lists, switch};

// Magic, version, both widths, caps and the debug id.
const HEADER: usize = 28;

// The header, the source name, the names, constants, tokens and assign records.
fn front(l: &Lent) -> usize
    requires { Ready (lent_is l.now) }
    ensures { Counts (front_of (lent_is l.now)) 0 result }
{
    let u = l.outside.used;
    let source = base::text(HEADER, l.text, l.outside.source);
    let ends = lists::name_ends(source, l.names, u.names);
    let blob = base::text(ends, l.text, l.outside.blob);
    let tree = constant::constants(blob, l.constants, u.constants, l.outside.tops, l.text);
    let tokens = lists::tokens(tree, l.tokens, u.tokens, l.text);
    lists::assigns(tokens, l.assigns, u.assigns, l.text)
}

// Chains, switches, custom sites, the main chunk, functions, the code and the position table.
fn back(at: usize, strip: bool, l: &Lent) -> usize
    requires at_bound { at ≤ 1048577 }
    requires ready { Ready (lent_is l.now) }
    ensures { Counts (back_of (lent_is l.now) strip) at result }
{
    let u = l.outside.used;
    let chains = chain::chains(at, strip, l.chains, u.chains, l.steps, u.steps);
    let switches = switch::switches(
        chains, l.switches, u.switches, l.cases, u.cases, l.ranges, u.ranges,
    );
    let sites = callable::sites(switches, l.customs, u.customs, l.inputs, u.inputs);
    let main = callable::chunk(sites, l.outside.main);
    let functions = callable::functions(main, l.functions, u.functions, l.parameters, u.parameters);
    let code = base::text(functions, l.text, l.outside.code);
    table(code, strip, l.text, l.outside.positions)
}

// A stripped artifact has an empty table.
fn table(at: usize, strip: bool, text: &[u8], positions: Span) -> usize
    requires { at ≤ 1048577 }
    ensures { Counts (put_bytes (table_in strip text.now positions)) at result }
{
    if strip {
        base::plus(at, base::number(0))
    } else {
        base::text(at, text, positions)
    }
}

// The bytes to be written, or one more than the longest file has.
pub fn count(strip: bool, l: &Lent) -> usize
    requires { Ready (lent_is l.now) }
    ensures { result ≡ min (length (bytes_of strip (lent_is l.now))) 1048577 }
{
    let middle = front(l);
    back(middle, strip, l)
}
