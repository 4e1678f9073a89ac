//! The methods of requests about a document.
ghost use Rattle.std.specs.Prelude.{◌≡◌, IfSome, IfNone};
ghost use Rattle.nova_lsp.specs.Methods.{NamesNone, name_of};

/// A method of a request about a document.
#[derive(Clone, Copy)]
pub enum Method {
    Hover,
    Definition,
    References,
    DocumentHighlight,
    DocumentSymbol,
    Formatting,
    FoldingRange,
    PrepareRename,
    Rename,
    Completion,
    SignatureHelp,
    CodeAction,
    InlayHint,
}

const METHODS: [Method; 13] = [
    Method::Hover,
    Method::Definition,
    Method::References,
    Method::DocumentHighlight,
    Method::DocumentSymbol,
    Method::Formatting,
    Method::FoldingRange,
    Method::PrepareRename,
    Method::Rename,
    Method::Completion,
    Method::SignatureHelp,
    Method::CodeAction,
    Method::InlayHint,
];

impl Method {
    /// How the protocol writes it.
    pub fn name(self) -> &'static str
        ensures { result.now ≡ name_of self }
    {
        match self {
            Method::Hover => "textDocument/hover",
            Method::Definition => "textDocument/definition",
            Method::References => "textDocument/references",
            Method::DocumentHighlight => "textDocument/documentHighlight",
            Method::DocumentSymbol => "textDocument/documentSymbol",
            Method::Formatting => "textDocument/formatting",
            Method::FoldingRange => "textDocument/foldingRange",
            Method::PrepareRename => "textDocument/prepareRename",
            Method::Rename => "textDocument/rename",
            Method::Completion => "textDocument/completion",
            Method::SignatureHelp => "textDocument/signatureHelp",
            Method::CodeAction => "textDocument/codeAction",
            Method::InlayHint => "textDocument/inlayHint",
        }
    }

    /// The method of this name.
    pub fn named(text: &str) -> Option<Method>
        ensures some { IfSome result (λ method. text.now ≡ name_of method) }
        ensures none { IfNone result (NamesNone text.now) }
    {
        for method in METHODS.iter() {
            if method.name() == text {
                return Some(*method);
            }
        }
        None
    }
}
