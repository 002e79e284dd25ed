//! What differs in flags and specifications.

ghost use Rattle.std.specs.Prelude.{◌≡◌, ◌++◌, [], OnOk, codes, decimal, drop};
ghost use Rattle.std.specs.Str.{bytes_eq};
ghost use Rattle.otp_reason.specs.Names.{name_bytes};
ghost use Rattle.otp_diff.specs.Changes.{and_text, change_text, child_title, difference, difference_told, flags_text, is_text, key_member, kind_text, lone_text, lone_title, mark_text, modules_text, number_change_text, order_change_text, order_line, order_object, order_told, period_text, seconds_text, shutdown_text, side_word, significant_text, spec_text, start_text, stop_text, strategy_text, supervisor_title, title_text, truth_text, value_text, values_members, values_text, was_text};

use otp_costs::limits::supervisor_path;
use otp_costs::put_below;
use otp_json::{put_json_text, put_key, put_text};
use otp_reason::Name;
use otp_spec::{ChildSpec, Modules, Shutdown, SupFlags};
use otp_text::write_number;
use std::alloc::AllocError;

/// In which form the differences are told.
#[derive(Clone, Copy, Debug, PartialEq, Eq)]
pub enum Form {
    /// As lines.
    Text,
    /// As an object of JSON.
    Object,
}

/// What values are, as JSON.
#[derive(Clone, Copy, Debug, PartialEq, Eq)]
pub(crate) enum Values {
    Texts,
    Numbers,
}

/// Two places for texts that are compared.
#[derive(Drop)]
pub(crate) struct Words {
    pub one: Vec<u8>,
    pub other: Vec<u8>,
}

impl Words {
    /// Both texts are empty from now on.
    pub fn clear(&mut self)
        ensures one { self.new.one.items ≡ [] }
        ensures other { self.new.other.items ≡ [] }
    {
        self.one.clear();
        self.other.clear();
    }
}

/// Whether two texts are the same.
pub(crate) fn is_same(one: &[u8], other: &[u8]) -> bool
    ensures { result ≡ bytes_eq one.now other.now }
{
    one == other
}

/// Appends what differs, as the beginning of a line.
#[tactic(auto, unfolding(crate::specs::Changes::title_text))]
fn write_title(title: &[u8], key: &[u8], out: &mut Vec<u8>) -> Result<(), AllocError>
    ensures { OnOk result (out.new.items ≡ out.old.items ++ title_text title.now key.now) }
{
    out.extend_from_slice(title)?;
    out.extend_from_slice(b": ")?;
    out.extend_from_slice(key)
}

/// Appends the values of what differs, as the end of a line.
#[tactic(auto, unfolding(crate::specs::Changes::values_text))]
fn write_values(one: &[u8], other: &[u8], out: &mut Vec<u8>) -> Result<(), AllocError>
    ensures { OnOk result (out.new.items ≡ out.old.items ++ values_text one.now other.now) }
{
    out.extend_from_slice(b" ")?;
    out.extend_from_slice(one)?;
    out.extend_from_slice(b" -> ")?;
    out.extend_from_slice(other)?;
    out.extend_from_slice(b"\n")
}

/// Appends what differs, as the beginning of an object behind another.
#[tactic(auto, unfolding(crate::specs::Changes::key_member))]
fn put_member(title: &[u8], key: &[u8], out: &mut Vec<u8>) -> Result<(), AllocError>
    ensures { OnOk result (out.new.items ≡ out.old.items ++ key_member title.now key.now) }
{
    out.extend_from_slice(b", ")?;
    out.extend_from_slice(title)?;
    put_text(b", ", b"key", key, out)
}

/// Appends a value of an object.
#[tactic(auto, unfolding(crate::specs::Changes::value_text))]
fn put_value(values: Values, value: &[u8], out: &mut Vec<u8>) -> Result<(), AllocError>
    ensures { OnOk result (out.new.items ≡ out.old.items ++ value_text values value.now) }
{
    match values {
        Values::Texts => put_json_text(value, out),
        Values::Numbers => out.extend_from_slice(value),
    }
}

/// Appends values that differ, as the end of an object.
#[tactic(auto, unfolding(crate::specs::Changes::values_members))]
fn put_values(values: Values, one: &[u8], other: &[u8], out: &mut Vec<u8>) -> Result<(), AllocError>
    ensures { OnOk result (out.new.items ≡ out.old.items ++ values_members (value_text values one.now) (value_text values other.now)) }
{
    put_key(b", ", b"from", out)?;
    put_value(values, one, out)?;
    put_key(b", ", b"to", out)?;
    put_value(values, other, out)?;
    out.extend_from_slice(b"}")
}

/// Appends values that differ.
#[tactic(auto, unfolding(crate::specs::Changes::difference_told))]
fn tell_difference(
    form: Form,
    values: Values,
    title: &[u8],
    key: &[u8],
    one: &[u8],
    other: &[u8],
    out: &mut Vec<u8>,
) -> Result<(), AllocError>
    ensures { OnOk result (out.new.items ≡ out.old.items ++ difference_told form values title.now key.now one.now other.now) }
{
    match form {
        Form::Text => {
            write_title(title, key, out)?;
            write_values(one, other, out)
        }
        Form::Object => {
            put_member(title, key, out)?;
            put_values(values, one, other, out)
        }
    }
}

/// Appends two values, if they differ.
#[tactic(auto, unfolding(crate::specs::Changes::difference))]
fn write_difference(
    form: Form,
    values: Values,
    title: &[u8],
    key: &[u8],
    one: &[u8],
    other: &[u8],
    out: &mut Vec<u8>,
) -> Result<(), AllocError>
    ensures { OnOk result (out.new.items ≡ out.old.items ++ difference form values title.now key.now one.now other.now) }
{
    if is_same(one, other) {
        return Ok(());
    }
    tell_difference(form, values, title, key, one, other, out)
}

/// Appends two texts, if they differ.
pub(crate) fn write_change(
    form: Form,
    title: &[u8],
    key: &[u8],
    one: &[u8],
    other: &[u8],
    out: &mut Vec<u8>,
) -> Result<(), AllocError>
    ensures { OnOk result (out.new.items ≡ out.old.items ++ change_text form title.now key.now one.now other.now) }
{
    write_difference(form, Values::Texts, title, key, one, other, out)
}

/// Appends the two texts of these places, if they differ.
pub(crate) fn write_words_change(
    form: Form,
    values: Values,
    title: &[u8],
    key: &[u8],
    words: &Words,
    out: &mut Vec<u8>,
) -> Result<(), AllocError>
    ensures { OnOk result (out.new.items ≡ out.old.items ++ difference form values title.now key.now words.now.one.items words.now.other.items) }
{
    write_difference(
        form,
        values,
        title,
        key,
        words.one.as_slice(),
        words.other.as_slice(),
        out,
    )
}

/// Appends a number that differs.
pub(crate) fn write_number_change(
    form: Form,
    title: &[u8],
    key: &[u8],
    numbers: (u64, u64),
    words: &mut Words,
    out: &mut Vec<u8>,
) -> Result<(), AllocError>
    ensures { OnOk result (out.new.items ≡ out.old.items ++ number_change_text form title.now key.now (decimal numbers.0) (decimal numbers.1)) }
{
    words.clear();
    write_number(numbers.0, &mut words.one)?;
    write_number(numbers.1, &mut words.other)?;
    write_words_change(form, Values::Numbers, title, key, words, out)
}

/// Appends a number of seconds.
#[tactic(auto, unfolding(crate::specs::Changes::seconds_text))]
fn write_period(form: Form, count: u64, out: &mut Vec<u8>) -> Result<(), AllocError>
    ensures { OnOk result (out.new.items ≡ out.old.items ++ seconds_text form count) }
{
    match form {
        Form::Text => {
            write_number(count, out)?;
            out.extend_from_slice(b" s")
        }
        Form::Object => write_number(count, out),
    }
}

/// Appends a period that differs.
fn write_period_change(
    form: Form,
    title: &[u8],
    one: u64,
    other: u64,
    words: &mut Words,
    out: &mut Vec<u8>,
) -> Result<(), AllocError>
    ensures { OnOk result (out.new.items ≡ out.old.items ++ number_change_text form title.now (codes "period") (seconds_text form one) (seconds_text form other)) }
{
    words.clear();
    write_period(form, one, &mut words.one)?;
    write_period(form, other, &mut words.other)?;
    write_words_change(form, Values::Numbers, title, b"period", words, out)
}

/// Appends strategies and intensities that differ.
#[tactic(auto, unfolding(crate::specs::Changes::strategy_text))]
fn write_strategy(
    form: Form,
    title: &[u8],
    a: &SupFlags,
    b: &SupFlags,
    words: &mut Words,
    out: &mut Vec<u8>,
) -> Result<(), AllocError>
    ensures { OnOk result (out.new.items ≡ out.old.items ++ strategy_text form title.now a.now b.now) }
{
    write_change(
        form,
        title,
        b"strategy",
        a.strategy.word().as_bytes(),
        b.strategy.word().as_bytes(),
        out,
    )?;
    write_number_change(
        form,
        title,
        b"intensity",
        (a.intensity, b.intensity),
        words,
        out,
    )
}

/// Appends periods, and what the end of significant children does, where they differ.
#[tactic(auto, unfolding(crate::specs::Changes::period_text))]
fn write_period_and_end(
    form: Form,
    title: &[u8],
    a: &SupFlags,
    b: &SupFlags,
    words: &mut Words,
    out: &mut Vec<u8>,
) -> Result<(), AllocError>
    ensures { OnOk result (out.new.items ≡ out.old.items ++ period_text form title.now a.now b.now) }
{
    write_period_change(form, title, a.period, b.period, words, out)?;
    write_change(
        form,
        title,
        b"auto_shutdown",
        a.auto_shutdown.word().as_bytes(),
        b.auto_shutdown.word().as_bytes(),
        out,
    )
}

/// Appends what differs in the flags of a supervisor with this name.
#[tactic(auto, unfolding(crate::specs::Changes::flags_text))]
pub(crate) fn write_flags(
    form: Form,
    title: &[u8],
    a: &SupFlags,
    b: &SupFlags,
    words: &mut Words,
    out: &mut Vec<u8>,
) -> Result<(), AllocError>
    ensures { OnOk result (out.new.items ≡ out.old.items ++ flags_text form title.now a.now b.now) }
{
    write_strategy(form, title, a, b, words, out)?;
    write_period_and_end(form, title, a, b, words, out)
}

/// Appends how a child is stopped.
#[tactic(auto, unfolding(crate::specs::Changes::shutdown_text))]
fn write_shutdown(shutdown: Shutdown, out: &mut Vec<u8>) -> Result<(), AllocError>
    ensures { OnOk result (out.new.items ≡ out.old.items ++ shutdown_text shutdown) }
{
    match shutdown {
        Shutdown::BrutalKill => out.extend_from_slice(b"brutal_kill"),
        Shutdown::Milliseconds(count) => {
            write_number(u64::from(count), out)?;
            out.extend_from_slice(b" ms")
        }
        Shutdown::Infinity => out.extend_from_slice(b"infinity"),
    }
}

/// Appends how a child is stopped, where it differs.
#[tactic(auto, unfolding(crate::specs::Changes::stop_text))]
fn write_shutdown_change(
    form: Form,
    title: &[u8],
    a: &ChildSpec,
    b: &ChildSpec,
    words: &mut Words,
    out: &mut Vec<u8>,
) -> Result<(), AllocError>
    ensures { OnOk result (out.new.items ≡ out.old.items ++ stop_text form title.now a.now b.now) }
{
    words.clear();
    write_shutdown(a.shutdown, &mut words.one)?;
    write_shutdown(b.shutdown, &mut words.other)?;
    write_words_change(form, Values::Texts, title, b"shutdown", words, out)
}

/// Appends a name of a list behind another.
fn write_and(name: &Name, out: &mut Vec<u8>) -> Result<(), AllocError>
    ensures { OnOk result (out.new.items ≡ out.old.items ++ and_text name.now) }
{
    out.extend_from_slice(b", ")?;
    out.extend_from_slice(name.as_bytes())
}

/// Appends the first name of a list.
fn write_first(name: &Name, out: &mut Vec<u8>) -> Result<(), AllocError>
    ensures { OnOk result (out.new.items ≡ out.old.items ++ codes "[" ++ name_bytes name.now) }
{
    out.extend_from_slice(b"[")?;
    out.extend_from_slice(name.as_bytes())
}

/// Appends modules.
#[tactic(auto, unfolding(crate::specs::Changes::modules_text))]
fn write_modules(modules: &Modules, out: &mut Vec<u8>) -> Result<(), AllocError>
    ensures { OnOk result (out.new.items ≡ out.old.items ++ modules_text modules.now) }
{
    match modules {
        Modules::Dynamic => return out.extend_from_slice(b"dynamic"),
        Modules::None => return out.extend_from_slice(b"[]"),
        Modules::One(a) => write_first(a, out)?,
        Modules::Two(a, b) => {
            write_first(a, out)?;
            write_and(b, out)?;
        }
        Modules::Three(a, b, c) => {
            write_first(a, out)?;
            write_and(b, out)?;
            write_and(c, out)?;
        }
        Modules::Four(a, b, c, d) => {
            write_first(a, out)?;
            write_and(b, out)?;
            write_and(c, out)?;
            write_and(d, out)?;
        }
    }
    out.extend_from_slice(b"]")
}

/// Appends modules that differ.
fn write_modules_change(
    form: Form,
    title: &[u8],
    a: &ChildSpec,
    b: &ChildSpec,
    words: &mut Words,
    out: &mut Vec<u8>,
) -> Result<(), AllocError>
    ensures { OnOk result (out.new.items ≡ out.old.items ++ change_text form title.now (codes "modules") (modules_text a.now.modules) (modules_text b.now.modules)) }
{
    words.clear();
    write_modules(&a.modules, &mut words.one)?;
    write_modules(&b.modules, &mut words.other)?;
    write_words_change(form, Values::Texts, title, b"modules", words, out)
}

/// The word of a truth value.
pub(crate) fn truth_text(value: bool) -> &'static [u8]
    ensures { result.now ≡ truth_text value }
{
    if value { b"true" } else { b"false" }
}

/// Appends how children are started, and started again, where it differs.
#[tactic(auto, unfolding(crate::specs::Changes::start_text))]
fn write_start(
    form: Form,
    title: &[u8],
    a: &ChildSpec,
    b: &ChildSpec,
    out: &mut Vec<u8>,
) -> Result<(), AllocError>
    ensures { OnOk result (out.new.items ≡ out.old.items ++ start_text form title.now a.now b.now) }
{
    write_change(
        form,
        title,
        b"start",
        a.start.as_bytes(),
        b.start.as_bytes(),
        out,
    )?;
    write_change(
        form,
        title,
        b"restart",
        a.restart.word().as_bytes(),
        b.restart.word().as_bytes(),
        out,
    )
}

/// Appends what their ends do, where it differs.
#[tactic(auto, unfolding(crate::specs::Changes::significant_text))]
fn write_significant(
    form: Form,
    title: &[u8],
    a: &ChildSpec,
    b: &ChildSpec,
    out: &mut Vec<u8>,
) -> Result<(), AllocError>
    ensures { OnOk result (out.new.items ≡ out.old.items ++ significant_text form title.now a.now b.now) }
{
    write_change(
        form,
        title,
        b"significant",
        truth_text(a.significant),
        truth_text(b.significant),
        out,
    )
}

/// Appends types and modules that differ.
#[tactic(auto, unfolding(crate::specs::Changes::kind_text))]
fn write_kind(
    form: Form,
    title: &[u8],
    a: &ChildSpec,
    b: &ChildSpec,
    words: &mut Words,
    out: &mut Vec<u8>,
) -> Result<(), AllocError>
    ensures { OnOk result (out.new.items ≡ out.old.items ++ kind_text form title.now a.now b.now) }
{
    write_change(
        form,
        title,
        b"type",
        a.kind.word().as_bytes(),
        b.kind.word().as_bytes(),
        out,
    )?;
    write_modules_change(form, title, a, b, words, out)
}

/// Appends what differs in the keys of a child with this name.
#[tactic(auto, unfolding(crate::specs::Changes::spec_text))]
pub(crate) fn write_spec(
    form: Form,
    title: &[u8],
    a: &ChildSpec,
    b: &ChildSpec,
    words: &mut Words,
    out: &mut Vec<u8>,
) -> Result<(), AllocError>
    ensures { OnOk result (out.new.items ≡ out.old.items ++ spec_text form title.now a.now b.now) }
{
    write_start(form, title, a, b, out)?;
    write_significant(form, title, a, b, out)?;
    write_shutdown_change(form, title, a, b, words, out)?;
    write_kind(form, title, a, b, words, out)
}

/// Appends that a supervisor had another start order.
#[tactic(auto, unfolding(crate::specs::Changes::was_text))]
fn write_was(title: &[u8], out: &mut Vec<u8>) -> Result<(), AllocError>
    ensures { OnOk result (out.new.items ≡ out.old.items ++ was_text title.now) }
{
    out.extend_from_slice(title)?;
    out.extend_from_slice(b": start order")
}

/// Appends the start order that a supervisor has now.
#[tactic(auto, unfolding(crate::specs::Changes::is_text))]
fn write_is(other: &[u8], out: &mut Vec<u8>) -> Result<(), AllocError>
    ensures { OnOk result (out.new.items ≡ out.old.items ++ is_text other.now) }
{
    out.extend_from_slice(b" ->")?;
    out.extend_from_slice(other)?;
    out.extend_from_slice(b"\n")
}

/// Appends the start orders that differ, as a line.
#[tactic(auto, unfolding(crate::specs::Changes::order_line))]
fn write_order_line(
    title: &[u8],
    one: &[u8],
    other: &[u8],
    out: &mut Vec<u8>,
) -> Result<(), AllocError>
    ensures { OnOk result (out.new.items ≡ out.old.items ++ order_line title.now one.now other.now) }
{
    write_was(title, out)?;
    out.extend_from_slice(one)?;
    write_is(other, out)
}

/// A text without so many bytes at its beginning.
pub(crate) fn without(count: usize, text: &[u8]) -> &[u8]
    ensures { result.now ≡ drop count text.now }
{
    &text[count.min(text.len())..]
}

/// Appends the start orders that differ, as an object.
#[tactic(auto, unfolding(crate::specs::Changes::order_object))]
fn put_order_object(
    title: &[u8],
    one: &[u8],
    other: &[u8],
    out: &mut Vec<u8>,
) -> Result<(), AllocError>
    ensures { OnOk result (out.new.items ≡ out.old.items ++ order_object title.now one.now other.now) }
{
    put_member(title, b"start order", out)?;
    put_values(Values::Texts, without(1, one), without(1, other), out)
}

/// Appends the start orders that differ.
#[tactic(auto, unfolding(crate::specs::Changes::order_told))]
fn tell_orders(
    form: Form,
    title: &[u8],
    one: &[u8],
    other: &[u8],
    out: &mut Vec<u8>,
) -> Result<(), AllocError>
    ensures { OnOk result (out.new.items ≡ out.old.items ++ order_told form title.now one.now other.now) }
{
    match form {
        Form::Text => write_order_line(title, one, other, out),
        Form::Object => put_order_object(title, one, other, out),
    }
}

/// Appends a start order that differs.
#[tactic(auto, unfolding(crate::specs::Changes::order_change_text))]
pub(crate) fn write_order_change(
    form: Form,
    title: &[u8],
    one: &[u8],
    other: &[u8],
    out: &mut Vec<u8>,
) -> Result<(), AllocError>
    ensures { OnOk result (out.new.items ≡ out.old.items ++ order_change_text form title.now one.now other.now) }
{
    if is_same(one, other) {
        return Ok(());
    }
    tell_orders(form, title, one, other, out)
}

/// The mark of what is in one tree alone.
#[tactic(auto, unfolding(crate::specs::Changes::mark_text))]
fn mark_text(is_other: bool) -> &'static [u8]
    ensures { result.now ≡ mark_text is_other }
{
    if is_other { b"+ " } else { b"- " }
}

/// Which tree that is.
#[tactic(auto, unfolding(crate::specs::Changes::side_word))]
fn side_word(is_other: bool) -> &'static [u8]
    ensures { result.now ≡ side_word is_other }
{
    if is_other { b"other" } else { b"file" }
}

/// Appends a child or a supervisor that is in one tree alone.
#[tactic(auto, unfolding(crate::specs::Changes::lone_text))]
pub(crate) fn write_lone(
    form: Form,
    is_other: bool,
    title: &[u8],
    out: &mut Vec<u8>,
) -> Result<(), AllocError>
    ensures { OnOk result (out.new.items ≡ out.old.items ++ lone_text form is_other title.now) }
{
    match form {
        Form::Text => {
            out.extend_from_slice(mark_text(is_other))?;
            out.extend_from_slice(title)?;
            out.extend_from_slice(b"\n")
        }
        Form::Object => {
            out.extend_from_slice(b", ")?;
            out.extend_from_slice(title)?;
            put_text(b", ", b"only_in", side_word(is_other), out)?;
            out.extend_from_slice(b"}")
        }
    }
}

/// What changes are of, in the place of a text: a child of a supervisor with this path. The word is another place.
#[tactic(auto, unfolding(crate::specs::Changes::child_title))]
pub(crate) fn put_child_title(
    form: Form,
    path: &[u8],
    id: &Name,
    word: &mut Vec<u8>,
    title: &mut Vec<u8>,
) -> Result<(), AllocError>
    ensures { OnOk result (title.new.items ≡ child_title form path.now id.now) }
{
    match form {
        Form::Text => put_below(path, id, title),
        Form::Object => {
            put_below(path, id, word)?;
            title.clear();
            put_text(b"{", b"child", word.as_slice(), title)
        }
    }
}

/// What changes are of, in the place of a text: a supervisor with this path.
#[tactic(auto, unfolding(crate::specs::Changes::supervisor_title))]
pub(crate) fn put_supervisor_title(
    form: Form,
    path: &[u8],
    title: &mut Vec<u8>,
) -> Result<(), AllocError>
    ensures { OnOk result (title.new.items ≡ supervisor_title form path.now) }
{
    title.clear();
    match form {
        Form::Text => title.extend_from_slice(supervisor_path(path)),
        Form::Object => put_text(b"{", b"supervisor", supervisor_path(path), title),
    }
}

/// A supervisor that is in one tree alone, in the place of a text.
#[tactic(auto, unfolding(crate::specs::Changes::lone_title))]
pub(crate) fn put_lone_title(form: Form, path: &[u8], title: &mut Vec<u8>) -> Result<(), AllocError>
    ensures { OnOk result (title.new.items ≡ lone_title form path.now) }
{
    match form {
        Form::Text => {
            title.clear();
            title.extend_from_slice(path)
        }
        Form::Object => put_supervisor_title(Form::Object, path, title),
    }
}
