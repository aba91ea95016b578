//! The laws of packets, each the contract of a function that does nothing.

ghost use Rattle.std.specs.Prelude.{◌≡◌, List, ℕ};
ghost use Rattle.ec_io.specs.Order.{IsOrder, OrderValue};
ghost use Rattle.ec_io.specs.Question.{IsQuestion, QuestionValue};
ghost use Rattle.ec_io.specs.Reply.{IsReply, ReplyValue};
ghost use Rattle.ec_io.specs.Report.{IsReport, ReportValue};

/// No two orders have one spelling, and no two reports, questions or replies.
pub fn one_spelling()
    ensures orders { (bytes : List ℕ) (v w : OrderValue) → IsOrder bytes v → IsOrder bytes w → v ≡ w }
    ensures reports { (bytes : List ℕ) (v w : ReportValue) → IsReport bytes v → IsReport bytes w → v ≡ w }
    ensures questions { (bytes : List ℕ) (v w : QuestionValue) → IsQuestion bytes v → IsQuestion bytes w
        → v ≡ w }
    ensures replies { (bytes : List ℕ) (v w : ReplyValue) → IsReply bytes v → IsReply bytes w → v ≡ w }
{}

/// No packet is of two kinds: none is an order and a report, or one of these and a question or a reply, or
/// both of the last.
pub fn one_kind()
    ensures order_report { (bytes : List ℕ) (v : OrderValue) (w : ReportValue) → IsOrder bytes v
        → IsReport bytes w → ⊥ }
    ensures order_question { (bytes : List ℕ) (v : OrderValue) (w : QuestionValue) → IsOrder bytes v
        → IsQuestion bytes w → ⊥ }
    ensures order_reply { (bytes : List ℕ) (v : OrderValue) (w : ReplyValue) → IsOrder bytes v
        → IsReply bytes w → ⊥ }
    ensures report_question { (bytes : List ℕ) (v : ReportValue) (w : QuestionValue) → IsReport bytes v
        → IsQuestion bytes w → ⊥ }
    ensures report_reply { (bytes : List ℕ) (v : ReportValue) (w : ReplyValue) → IsReport bytes v
        → IsReply bytes w → ⊥ }
    ensures question_reply { (bytes : List ℕ) (v : QuestionValue) (w : ReplyValue) → IsQuestion bytes v
        → IsReply bytes w → ⊥ }
{}
