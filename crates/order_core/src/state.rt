//! How far orders have come.
ghost use Rattle.std.specs.Prelude.{◌≡◌, ◌↔◌, IsTrue};
ghost use Rattle.order_core.specs.OrderColumns.{state_code, state_of};
ghost use Rattle.order_core.specs.Orders.{is_in_progress, is_open, is_pending};

/// How far an order has come.
#[derive(Clone, Copy, Debug, PartialEq, Eq)]
pub enum OrderState {
    /// Its lines are written down, and nothing comes or goes by it yet.
    Pending,
    /// Stock comes or goes by it.
    InProgress,
    /// All of it is done.
    Complete,
    /// It was given up.
    Cancelled,
}

impl OrderState {
    /// Whether it is not yet under way.
    pub fn is_pending(self) -> bool
        ensures { result ≡ is_pending self }
    {
        matches!(self, OrderState::Pending)
    }

    /// Whether it is neither done nor given up.
    pub fn is_open(self) -> bool
        ensures { result ≡ is_open self }
    {
        matches!(self, OrderState::Pending | OrderState::InProgress)
    }

    /// Whether the order is under way.
    pub fn is_in_progress(self) -> bool
        ensures { result ≡ is_in_progress self }
    {
        matches!(self, OrderState::InProgress)
    }

    /// The state's number, as a file has it.
    pub fn code(self) -> u64
        ensures { result ≡ state_code self }
    {
        match self {
            OrderState::Pending => 0,
            OrderState::InProgress => 1,
            OrderState::Complete => 2,
            OrderState::Cancelled => 3,
        }
    }

    /// The state of that number, none where there is none.
    pub fn from_code(code: u64) -> Option<OrderState>
        ensures { result ≡ state_of code }
    {
        match code {
            0 => Some(OrderState::Pending),
            1 => Some(OrderState::InProgress),
            2 => Some(OrderState::Complete),
            3 => Some(OrderState::Cancelled),
            _ => None,
        }
    }

    /// Whether the states are the same.
    pub fn equals(self, other: OrderState) -> bool
        ensures { IsTrue result ↔ (self ≡ other) }
    {
        self == other
    }
}
