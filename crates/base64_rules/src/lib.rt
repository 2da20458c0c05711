// Base64 (RFC 4648): what decoding and encoding mean, and their laws. The code stands in base64_coding.
#![tactic(auto)]
