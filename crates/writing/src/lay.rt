// The bytes of what tables mean, section by section in file order, into a lent output from its first byte on.
ghost use Rattle.written.specs.Put.{put_bytes};
ghost use Rattle.model.specs.Told.{lent_is};
ghost use Rattle.model.specs.Written.{bytes_of};
ghost use Rattle.emit.specs.Puts.{Puts};
ghost use Rattle.writing.specs.Ready.{Ready};
ghost use Rattle.writing.specs.Halves.{front_of, back_of, table_in};

use emit::{base, callable, chain, constant, header, lists, records, switch};
use grammar::Span;
use model::Lent;

// The header, the source name, the names, constants, tokens and assign records.
fn front(out: &mut [u8], l: &Lent) -> usize
    requires { Ready (lent_is l.now) }
    ensures { Puts (front_of (lent_is l.now)) out.old 0 out.new result }
{
    let u = l.outside.used;
    let start = header::header(out, 0, l.outside.header);
    let source = base::text(out, start, l.text, l.outside.source);
    let ends = lists::name_ends(out, source, l.names, u.names);
    let blob = base::text(out, ends, l.text, l.outside.blob);
    let tree = constant::constants(out, blob, l.constants, u.constants, l.outside.tops, l.text);
    let tokens = lists::tokens(out, tree, l.tokens, u.tokens, l.text);
    lists::assigns(out, tokens, l.assigns, u.assigns, l.text)
}

// Chains, switches, custom sites, the main chunk, functions, the code and the position table.
fn back(out: &mut [u8], at: usize, strip: bool, l: &Lent) -> usize
    requires { Ready (lent_is l.now) }
    ensures { Puts (back_of (lent_is l.now) strip) out.old at out.new result }
{
    let u = l.outside.used;
    let chains = chain::chains(out, at, strip, l.chains, u.chains, l.steps);
    let switches = switch::switches(out, chains, l.switches, u.switches, l.cases, l.ranges);
    let sites = callable::sites(out, switches, l.customs, u.customs, l.inputs);
    let main = records::chunk(out, sites, l.outside.main);
    let functions = callable::functions(out, main, l.functions, u.functions, l.parameters);
    let code = base::text(out, functions, l.text, l.outside.code);
    table(out, code, strip, l.text, l.outside.positions)
}

// A stripped artifact has an empty table.
fn table(out: &mut [u8], at: usize, strip: bool, text: &[u8], positions: Span) -> usize
    ensures { Puts (put_bytes (table_in strip text.now positions)) out.old at out.new result }
{
    if strip {
        base::number(out, at, 0)
    } else {
        base::text(out, at, text, positions)
    }
}

pub fn lay(out: &mut [u8], strip: bool, l: &Lent) -> usize
    requires { Ready (lent_is l.now) }
    ensures { Puts (bytes_of strip (lent_is l.now)) out.old 0 out.new result }
{
    let middle = front(out, l);
    back(out, middle, strip, l)
}
