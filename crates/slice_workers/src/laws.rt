//! What is proved of the queue's rule itself: each function does nothing, and its contract is the law.

ghost use Rattle.std.specs.Prelude.{◌≡◌, ◌+◌, ℕ, List, [], ◌∷◌, ◌++◌, map};
ghost use Rattle.task_board.specs.declared.ticket.Ticket.{Ticket};
ghost use Rattle.slice_workers.specs.declared.tickets.Hand.{Hand};
ghost use Rattle.slice_workers.specs.Tickets.{Merged, hand, weigh, weigh_all};

/// However tickets are weighed, those that were taken and those that the queue holds weigh what those that
/// were put weigh. So each that was put has come out once, or is still in the queue.
pub fn tickets_are_neither_lost_nor_made()
    ensures { (items : List Ticket) → (passes : List Hand) → Merged items passes
        → (weight : Ticket → ℕ) → weigh_all weight (map (λ v. v.taken) passes) + weigh weight items
        ≡ weigh_all weight (map (λ v. v.put) passes) }
{}

/// By one pass alone, tickets are taken in the order in which they were put.
pub fn one_pass_keeps_its_order()
    ensures { (items put taken : List Ticket) → Merged items (hand put taken ∷ [])
        → taken ++ items ≡ put }
{}

/// Two passes put tickets, and each takes one of the other's.
pub fn two_passes_may_take_from_each_other()
    ensures taken { (a b c : Ticket)
        → Merged (b ∷ []) (hand (a ∷ b ∷ []) (c ∷ []) ∷ hand (c ∷ []) (a ∷ []) ∷ []) }
    ensures twice { (a : Ticket)
        → Merged [] (hand (a ∷ []) (a ∷ []) ∷ hand [] (a ∷ []) ∷ []) → ⊥ }
{}
