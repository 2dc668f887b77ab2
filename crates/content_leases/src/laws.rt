//! Laws of the store. Each function is nothing but its contract.

ghost use Rattle.std.specs.Prelude.{◌≡◌, ◌⊎◌, List, ℕ, None, Some, Ok, Err, true, false};
ghost use Rattle.content_leases.specs.Limits.{max_contents, max_leases, max_members};
ghost use Rattle.content_leases.specs.Refusals.{Refusals, first_refusal, remove_refusals};
ghost use Rattle.content_leases.specs.Requests.{IsAnswered};
ghost use Rattle.wasm_ast.specs.declared.refusal.Refusal.{Refusal as RefusalValue};
ghost use Rattle.content_leases.specs.StoreState.{StoreState, content_in, is_held, without_content, collected};

use wasm_ast::Refusal;

/// A content that is held is never removed: collecting leaves it, and a request to remove it is refused.
pub fn held_contents_stay()
    ensures collect { (used : List (List ℕ)) (s : StoreState) (digest : List ℕ)
        → is_held used s.leases digest ≡ true
        → content_in (collected used s).contents digest ≡ content_in s.contents digest }
    ensures remove { (used : List (List ℕ)) (s : StoreState) (digest : List ℕ)
        → is_held used s.leases digest ≡ true
        → first_refusal (remove_refusals used s digest) ≡ None → ⊥ }
{}

/// Collecting leaves no content that is not held.
pub fn unheld_contents_go()
    ensures { (used : List (List ℕ)) (s : StoreState) (digest : List ℕ)
        → is_held used s.leases digest ≡ false
        → content_in (collected used s).contents digest ≡ None }
{}

/// A request that is refused, also for lack of memory, leaves the store as it was; and it is refused only for
/// the first condition that holds, or for lack of memory.
pub fn refused_requests_leave_the_store()
    ensures same { (refusals : Refusals) (e : RefusalValue) (s t : StoreState)
        → IsAnswered refusals (λ (x : ℕ). t ≡ s) (Err e) s t → t ≡ s }
    ensures first { (refusals : Refusals) (e : RefusalValue) (s t : StoreState)
        → IsAnswered refusals (λ (x : ℕ). t ≡ s) (Err e) s t
        → (e ≡ Refusal.NoMemory) ⊎ (first_refusal refusals ≡ Some e) }
{}

/// A request that is accepted had no refusal whose condition holds, and has its effect.
pub fn accepted_requests_have_no_refusal()
    ensures none { (refusals : Refusals) (x : ℕ) (s t : StoreState)
        → IsAnswered refusals (λ (y : ℕ). y ≡ 7) (Ok x) s t → first_refusal refusals ≡ None }
    ensures effect { (refusals : Refusals) (x : ℕ) (s t : StoreState)
        → IsAnswered refusals (λ (y : ℕ). y ≡ 7) (Ok x) s t → x ≡ 7 }
{}

/// The limits of the store: contents, leases, and digests of one lease.
pub fn limits_are_these()
    ensures contents { max_contents ≡ 256 }
    ensures leases { max_leases ≡ 64 }
    ensures members { max_members ≡ 64 }
{}
