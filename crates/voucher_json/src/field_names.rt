ghost use Rattle.std.specs.Prelude.{◌≡◌};
ghost use Rattle.voucher_json.specs.FieldNames.{field_text};

use stock_model::read_faults::FieldName;

/// How a field is spelled.
pub fn field_text(name: FieldName) -> &'static str
    ensures { result.now ≡ field_text name }
{
    match name {
        FieldName::Do => "do",
        FieldName::Code => "code",
        FieldName::Method => "method",
        FieldName::Account => "account",
        FieldName::At => "at",
        FieldName::Lines => "lines",
        FieldName::Item => "item",
        FieldName::Store => "store",
        FieldName::Qty => "qty",
        FieldName::Amount => "amount",
        FieldName::Use => "use",
        FieldName::From => "from",
        FieldName::To => "to",
        FieldName::Record => "record",
        FieldName::Line => "line",
        FieldName::Charge => "charge",
        FieldName::Basis => "basis",
        FieldName::Targets => "targets",
        FieldName::Turns => "turns",
        FieldName::Of => "of",
        FieldName::Need => "need",
        FieldName::Until => "until",
        FieldName::As => "as",
        FieldName::Desk => "desk",
        FieldName::Request => "request",
        FieldName::Other => "other",
    }
}
