// An operator cut down to one variable: the value that it requires there, if any, and the value that it sets, if any.
#[derive(Clone, Copy)]
pub struct OperatorPart {
    pub required: Option<u8>,
    pub value: Option<u8>,
}

impl OperatorPart {
    // Nothing is required of the variable, and it keeps its value.
    pub const UNTOUCHED: OperatorPart = OperatorPart {
        required: None,
        value: None,
    };
}

// An operator cut down to a pattern: its part at each place.
#[derive(Clone, Copy)]
pub struct AbstractOperator {
    pub parts: [OperatorPart; 8],
}

impl AbstractOperator {
    // Nothing is required of any place, and none changes.
    pub const UNTOUCHED: AbstractOperator = AbstractOperator {
        parts: [OperatorPart::UNTOUCHED; 8],
    };
}
