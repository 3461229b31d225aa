// Two networks that are to be joined.
ghost use Rattle.std.specs.Prelude.{◌≡◌};
ghost use Rattle.records.specs.Checked.{CheckedNetwork};
ghost use Rattle.records.specs.Once.{network_once};
ghost use Rattle.matching.specs.Once.{one_form_once};

use nodes::NetworkRecord;

// Two networks of one form that a check has not refused.
#[derive(Clone, Copy)]
pub struct Pair<'a> {
    pub first: NetworkRecord<'a>,
    pub second: NetworkRecord<'a>,
    pub ghost one_form: { second.form ≡ first.form } by { one_form_once _ _ },
    pub ghost first_checked: { CheckedNetwork first.form first.bytes.now } by { network_once _ _ },
    pub ghost second_checked: { CheckedNetwork first.form second.bytes.now } by { network_once _ _ },
}
