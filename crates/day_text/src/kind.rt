// The kinds of records of a day file.

ghost use Rattle.std.specs.Prelude.{◌≡◌};
ghost use Rattle.day_text.specs.Kinds.{kind_of};

/// The kind of a record: its first field.
#[derive(Clone, Copy)]
pub(crate) enum RecordKind {
    Day,
    Node,
    Segment,
    Limit,
    Span,
    Truck,
    Actor,
    Apply,
    Post,
    SetDay,
    Surrender,
    Show,
    End,
}

/// The kind that a word means.
pub(crate) fn parse_kind(text: &str) -> Option<RecordKind>
    ensures { result ≡ kind_of text.now }
{
    match text {
        "day" => Some(RecordKind::Day),
        "node" => Some(RecordKind::Node),
        "segment" => Some(RecordKind::Segment),
        "limit" => Some(RecordKind::Limit),
        "span" => Some(RecordKind::Span),
        "truck" => Some(RecordKind::Truck),
        "actor" => Some(RecordKind::Actor),
        "apply" => Some(RecordKind::Apply),
        "post" => Some(RecordKind::Post),
        "setday" => Some(RecordKind::SetDay),
        "surrender" => Some(RecordKind::Surrender),
        "show" => Some(RecordKind::Show),
        "end" => Some(RecordKind::End),
        _ => None,
    }
}
