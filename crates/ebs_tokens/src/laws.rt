// The laws of tokens.
ghost use Rattle.std.specs.Prelude.{◌≡◌, ◌≢◌, ◌↔◌, ◌<◌, ◌^◌, ℕ, Bool, List, length, true, false, Some};
ghost use Rattle.ebs_model.specs.Tokens.{block_text, page_text, is_block_token, page_start};
ghost use Rattle.ebs_model.specs.declared.keys.SnapKey.{SnapKey};
ghost use Rattle.ebs_tokens.specs.Fields.{IsBlockField, IsPageField, text_of_block, text_of_page};
ghost use Rattle.ebs_tokens.specs.declared.block.BlockField.{BlockField};
ghost use Rattle.ebs_tokens.specs.declared.page.PageField.{PageField};

/// A block token has 114 digits, is good exactly where it is the text of its block for some later
/// expiry, and names one block alone, whatever the secrets.
pub fn block_tokens()
    ensures digits { (secret : List ℕ) (key : SnapKey) (index expiry : ℕ) → length (block_text secret key index expiry) ≡ 114 }
    ensures good { (secret : List ℕ) (key : SnapKey) (index now : ℕ) (text : List ℕ)
        → (is_block_token secret key index now text ≡ true)
        ↔ ((index < 2 ^ 32) × ((expiry : ℕ) × (now < expiry) × (expiry < 2 ^ 64) × (text ≡ block_text secret key index expiry))) }
    ensures one { (secret other : List ℕ) (field unlike : BlockField) → IsBlockField field → IsBlockField unlike
        → text_of_block secret field ≡ text_of_block other unlike → field ≡ unlike }
{}

/// A page token has 138 digits, begins a page at an index exactly where it is the text of that index
/// for some later expiry, and names one page alone, whatever the secrets.
pub fn page_tokens()
    ensures digits { (secret : List ℕ) (changed : Bool) (first second : SnapKey) (index expiry : ℕ)
        → length (page_text secret changed first second index expiry) ≡ 138 }
    ensures good { (secret : List ℕ) (changed : Bool) (first second : SnapKey) (now index : ℕ) (text : List ℕ)
        → (page_start secret changed first second now text ≡ Some index)
        ↔ ((index < 2 ^ 32) × ((expiry : ℕ) × (now < expiry) × (expiry < 2 ^ 64) × (text ≡ page_text secret changed first second index expiry))) }
    ensures one { (secret other : List ℕ) (field unlike : PageField) → IsPageField field → IsPageField unlike
        → text_of_page secret field ≡ text_of_page other unlike → field ≡ unlike }
{}

/// No text is a token of a block and of a page, or of pages of two kinds of list.
pub fn kinds_apart()
    ensures block { (secret other : List ℕ) (key first second : SnapKey) (index expiry from end : ℕ) (changed : Bool)
        → block_text secret key index expiry ≢ page_text other changed first second from end }
    ensures list { (secret other : List ℕ) (first second third fourth : SnapKey) (index expiry from end : ℕ)
        → page_text secret true first second index expiry ≢ page_text other false third fourth from end }
{}
