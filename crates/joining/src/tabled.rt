// Two networks that are to be joined, with their tables.
ghost use Rattle.std.specs.Prelude.{◌≡◌};
ghost use Rattle.records.specs.Checked.{CheckedNetwork};
ghost use Rattle.records.specs.Once.{network_once};
ghost use Rattle.matching.specs.Once.{one_form_once};

use records::TabledNetwork;

// Two networks of one form that a check has not refused, each with its table from ids to rows.
#[derive(Clone, Copy)]
pub struct TabledPair<'a, 'b, 't> {
    pub first: TabledNetwork<'a, 't>,
    pub second: TabledNetwork<'b, 't>,
    pub ghost one_form: { second.network.form ≡ first.network.form } by { one_form_once _ _ },
    pub ghost first_checked: { CheckedNetwork first.network.form first.network.bytes.now } by { network_once _ _ },
    pub ghost second_checked: { CheckedNetwork first.network.form second.network.bytes.now } by { network_once _ _ },
}
