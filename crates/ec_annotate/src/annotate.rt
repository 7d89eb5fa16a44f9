//! A text of payloads with remarks behind its lines.
ghost use Rattle.std.specs.Prelude.{◌≡◌, IfOk, string_bytes};
ghost use Rattle.std.specs.Option.{ForSome};
ghost use Rattle.std.specs.Str.Lines.{lines};
ghost use Rattle.ec_decode.specs.Indented.{without_indented};
ghost use Rattle.ec_link.specs.Usable.{IsUsable};
ghost use Rattle.ec_annotate.specs.Annotating.{Annotates, IsWoven};

use crate::names::Names;
use crate::remarks::remarks_of;
use ec_decode::laws::texts_have_no_indented_lines;
use ec_decode::{Decoded, decode_text, weave};
use ec_link::Plan;
use ec_table::Table;
use std::alloc::{AllocError, Global};

/// A link table and its plan, which name process data.
#[derive(Clone, Copy)]
pub struct Links<'a> {
    /// The table, which has the names of the variables.
    pub table: &'a Table,
    /// Its plan, as `ec_link::compile` made it.
    pub plan: &'a Plan,
}

/// What `ec_decode::decode_text` returns for a text, with remarks for people behind its lines. With names, they say what each
/// datagram says by the standard's names, and what is wrong with a payload that is no frame. With links, they
/// say which variables a datagram carries. Each line of a remark is indented, so that `ec_decode::encode_text` reads the
/// whole back as the same frames. `AllocError` if memory ran out.
pub fn annotate_text(
    alloc: Global,
    text: &str,
    names: Names,
    links: Option<Links<'_>>,
) -> Result<Decoded, AllocError>
    requires { ForSome links (λ links. IsUsable links.plan.now) }
    ensures { IfOk result (λ answer. Annotates (lines text.now) (string_bytes answer.text) answer.is_whole) }
{
    // This call does nothing; its contract says that text without remarks has no indented line.
    texts_have_no_indented_lines();
    let decoded = decode_text(alloc, text)?;
    let text = woven(alloc, &decoded, text, names, links)?;
    Ok(Decoded {
        text,
        is_whole: decoded.is_whole,
    })
}

/// A text of payloads, with the remarks on the payloads that lines of hex spell.
fn woven(
    alloc: Global,
    decoded: &Decoded,
    text: &str,
    names: Names,
    links: Option<Links<'_>>,
) -> Result<String, AllocError>
    requires { ForSome links (λ links. IsUsable links.plan.now) }
    ensures woven { IfOk result (λ answer. IsWoven (string_bytes decoded.now.text) (string_bytes answer)) }
    ensures same { IfOk result (λ answer. without_indented (string_bytes answer)
        ≡ without_indented (string_bytes decoded.now.text)) }
{
    let remarks = remarks_of(alloc, text, names, links)?;
    weave(alloc, decoded.text.as_str(), remarks.as_slice())
}
